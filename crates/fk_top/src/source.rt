//! The outcome of a command for a source.

ghost use Rattle.std.specs.Prelude.{◌⊎◌, ℕ, List, [], map, option_map, IfOk};
ghost use Rattle.fk_image.specs.Limits.{IsWithinLimits};
ghost use Rattle.fk_layout_globals.specs.View.{row_of};
ghost use Rattle.fk_compile_text.specs.Text.{HasRows};
ghost use Rattle.fk_compile.specs.Faithful.{IsFaithful};
ghost use Rattle.fk_top.specs.Outcome.{AuditsSource, LacksGlobal, PutsImage, RefusesSource};
ghost use Rattle.fk_top.specs.Outcome.{RunsSource, TracesSource};
ghost use Rattle.fk_top.specs.Outcome.{test_cycles, test_harts, test_shown};
ghost use Rattle.fk_top.specs.Ending.{outcome_of};

use crate::audit::audit_ending;
use crate::ending::{Ending, LastLine, PutFile, Told, no_global, refused_source};
use crate::machine_run::RunText;
use crate::refused::last_line_of;
use crate::report::Report;
use crate::run::run_ending;
use crate::status::Status;
use crate::variable::Variable;
use fk_compile::{Compiled, compile};
use fk_compile_text::find_global;
use fk_image::write_image;
use fk_top_words::RunWords;
use std::alloc::{AllocError, Global};

/// Compiles a source, to be run on an input text, and to show the variable of a name, if one is
/// given. Fails if there isn't enough memory.
pub fn run_source<'a>(
    alloc: Global,
    source: &[u8],
    text: &[u8],
    run: RunWords,
    show: Option<&'a str>,
) -> Result<Ending<'a>, AllocError>
    ensures { IfOk result (λ e. RefusesSource source.now (outcome_of e)
        ⊎ LacksGlobal source.now (option_map (λ s. s.now) show.entry) (outcome_of e)
        ⊎ RunsSource source.now text.now run.harts run.cycles
        (option_map (λ s. s.now) show.entry) (outcome_of e)) }
{
    match compile(alloc, source) {
        Ok(compiled) => run_and_show(alloc, compiled, text, run, show),
        Err(refusal) => refused_source(alloc, last_line_of(refusal)),
    }
}

/// Compiles a generated text, to be run by 64 harts, without input numbers and for at most 2^32 - 1
/// cycles, and to show the variable `c`. Fails if there isn't enough memory.
pub fn test_source<'a>(alloc: Global, source: &[u8]) -> Result<Ending<'a>, AllocError>
    ensures { IfOk result (λ e. RefusesSource source.now (outcome_of e)
        ⊎ LacksGlobal source.now test_shown (outcome_of e)
        ⊎ RunsSource source.now [] test_harts test_cycles test_shown (outcome_of e)) }
{
    let run = RunWords {
        harts: 64,
        cycles: u32::MAX,
    };
    run_source(alloc, source, &[], run, Some("c"))
}

// The image of a source is to be run, and to show the variable of a name, if one is given.
fn run_and_show<'a>(
    alloc: Global,
    compiled: Compiled,
    text: &[u8],
    run: RunWords,
    show: Option<&'a str>,
) -> Result<Ending<'a>, AllocError>
    requires limits { IsWithinLimits compiled.image }
    requires rows { (source : List ℕ) × HasRows source (map row_of compiled.rows.items) }
    ensures { (source : List ℕ) → IsFaithful source compiled.entry.image
        → HasRows source (map row_of compiled.entry.rows.items)
        → IfOk result (λ e. LacksGlobal source (option_map (λ s. s.now) show.entry) (outcome_of e)
        ⊎ RunsSource source text.now run.harts run.cycles
        (option_map (λ s. s.now) show.entry) (outcome_of e)) }
{
    let Some(name) = show else {
        return run_ending(alloc, compiled.image, text, run, RunText::Output(None));
    };
    match find_global(&compiled.rows, name.as_bytes()) {
        Some(row) => {
            let variable = Variable {
                name,
                first: row.first,
                words: row.words,
                signed: row.signed,
            };
            let shown = RunText::Output(Some(variable));
            run_ending(alloc, compiled.image, text, run, shown)
        }
        None => Ok(no_global(alloc, name)),
    }
}

/// Compiles a source, runs it on an input text, and tells which PRAM the run needed. Fails if there
/// isn't enough memory.
pub fn audit_source<'a>(
    alloc: Global,
    source: &[u8],
    text: &[u8],
    run: RunWords,
) -> Result<Ending<'a>, AllocError>
    ensures { IfOk result (λ e. RefusesSource source.now (outcome_of e)
        ⊎ AuditsSource source.now text.now run.harts run.cycles (outcome_of e)) }
{
    match compile(alloc, source) {
        Ok(compiled) => audit_ending(alloc, &compiled.image, text, run),
        Err(refusal) => refused_source(alloc, last_line_of(refusal)),
    }
}

/// Compiles a source, to be run on an input text and traced. Fails if there isn't enough memory.
pub fn trace_source<'a>(
    alloc: Global,
    source: &[u8],
    text: &[u8],
    run: RunWords,
) -> Result<Ending<'a>, AllocError>
    ensures { IfOk result (λ e. RefusesSource source.now (outcome_of e)
        ⊎ TracesSource source.now text.now run.harts run.cycles (outcome_of e)) }
{
    match compile(alloc, source) {
        Ok(compiled) => run_ending(alloc, compiled.image, text, run, RunText::Trace),
        Err(refusal) => refused_source(alloc, last_line_of(refusal)),
    }
}

/// Compiles a source and makes the bytes of its image. Fails if there isn't enough memory.
pub fn build_source<'a>(
    alloc: Global,
    source: &[u8],
    name: &'a str,
) -> Result<Ending<'a>, AllocError>
    ensures { IfOk result (λ e. RefusesSource source.now (outcome_of e)
        ⊎ PutsImage source.now name.now (outcome_of e)) }
{
    match compile(alloc, source) {
        Ok(compiled) => {
            let image = compiled.image;
            let bytes = write_image(alloc, &image)?;
            Ok(Ending::Told(Told {
                status: Status::Done,
                put: Some(PutFile { name, bytes }),
                output: Vec::new(alloc),
                line: LastLine::Reported(Report::Built(image.code.len() as u32)),
            }))
        }
        Err(refusal) => refused_source(alloc, last_line_of(refusal)),
    }
}
