//! What a command reads.

ghost use Rattle.std.specs.Prelude.{◌≡◌};
ghost use Rattle.fk_top_words.specs.Command.{command_of};
ghost use Rattle.fk_top.specs.Words.{most_input, origin_from, origin_of, trace_origin_of};

use fk_num::MOST_TEXT_BYTES;
use fk_top_words::CommandWords;

/// The most bytes of an image. One more is fetched, to recognize a longer one.
const IMAGE_LIMIT: usize = 5_434_904;

/// The most bytes of the ELF file of an image. One more is fetched too.
const ELF_LIMIT: usize = 5_435_036;

/// The most bytes of a trace that are fetched.
const TRACE_LIMIT: usize = 1 << 47;

/// Where the bytes that a command reads come from.
#[derive(Clone, Copy)]
pub enum OriginWords<'a> {
    /// The first bytes of the file of this name, at most so many.
    File(&'a str, usize),
    /// The generated text with so many statements.
    Generated(u32),
    /// The command reads nothing.
    Nowhere,
}

/// Where the bytes that a command reads come from.
pub fn origin_of<'a>(command: CommandWords<'a>) -> OriginWords<'a>
    ensures { origin_from result ≡ origin_of (command_of command.entry) }
{
    match command {
        CommandWords::Run(file, _, _)
        | CommandWords::Build(file, _)
        | CommandWords::Audit(file, _)
        | CommandWords::Trace(file, _)
        | CommandWords::Replay(file, _) => OriginWords::File(file, MOST_TEXT_BYTES + 1),
        CommandWords::Exec(image, _) | CommandWords::List(image) | CommandWords::Elf(image, _) => {
            OriginWords::File(image, IMAGE_LIMIT + 1)
        }
        CommandWords::Unelf(file, _) => OriginWords::File(file, ELF_LIMIT + 1),
        CommandWords::Selftest(statements) => OriginWords::Generated(statements),
        CommandWords::Locks => OriginWords::Nowhere,
    }
}

/// Where the trace comes from that a command reads beside its file.
pub fn trace_origin_of<'a>(command: CommandWords<'a>) -> OriginWords<'a>
    ensures { origin_from result ≡ trace_origin_of (command_of command.entry) }
{
    match command {
        CommandWords::Replay(_, trace) => OriginWords::File(trace, TRACE_LIMIT),
        _ => OriginWords::Nowhere,
    }
}

/// The most bytes of the input that a command takes, 0 if it takes none.
pub fn most_input(command: CommandWords) -> usize
    ensures { result ≡ most_input (command_of command.entry) }
{
    match command {
        CommandWords::Run(_, _, _) | CommandWords::Exec(_, _) => MOST_TEXT_BYTES + 1,
        CommandWords::Audit(_, _) | CommandWords::Trace(_, _) => MOST_TEXT_BYTES + 1,
        CommandWords::Replay(_, _) => MOST_TEXT_BYTES + 1,
        CommandWords::Build(_, _) | CommandWords::List(_) => 0,
        CommandWords::Elf(_, _) | CommandWords::Unelf(_, _) | CommandWords::Selftest(_) => 0,
        CommandWords::Locks => 0,
    }
}
