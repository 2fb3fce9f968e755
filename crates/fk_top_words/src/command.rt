//! The commands.

ghost use Rattle.std.specs.Prelude.{◌≤◌};

/// A run by this many harts, for at most this many cycles.
#[derive(Clone, Copy)]
pub struct RunWords {
    /// The number of harts, 1 to 1,024.
    pub harts: u32,
    /// The most cycles that they run.
    pub cycles: u32,
    ghost some_harts: { 1 ≤ harts },
    ghost few_harts: { harts ≤ 1024 },
}

/// A command, with its words.
#[derive(Clone, Copy)]
pub enum CommandWords<'a> {
    /// `run FILE --harts P --cycles N [--show NAME]`: compiles a source and runs it, and then shows
    /// the variable of this name.
    Run(&'a str, RunWords, Option<&'a str>),
    /// `build FILE -o IMAGE`: compiles a source and puts its image.
    Build(&'a str, &'a str),
    /// `exec IMAGE --harts P --cycles N`: runs an image.
    Exec(&'a str, RunWords),
    /// `list IMAGE`: lists the code of an image.
    List(&'a str),
    /// `elf IMAGE -o FILE`: puts the ELF file of an image.
    Elf(&'a str, &'a str),
    /// `unelf FILE -o IMAGE`: puts the image of an ELF file.
    Unelf(&'a str, &'a str),
    /// `audit FILE --harts P --cycles N`: compiles a source, runs it, and tells which PRAM the run
    /// needed.
    Audit(&'a str, RunWords),
    /// `trace FILE --harts P --cycles N`: compiles a source and runs it, and tells what the harts
    /// commit in each cycle.
    Trace(&'a str, RunWords),
    /// `replay FILE TRACE`: runs the program of a source under the schedule of a trace.
    Replay(&'a str, &'a str),
    /// `selftest N`: compiles and runs a text with N statements, which is generated. N is from 1 to
    /// 500.
    Selftest(u32),
    /// `locks`: gives the text of the fair lock.
    Locks,
}
