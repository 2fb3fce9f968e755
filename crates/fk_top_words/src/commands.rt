//! The commands as `clap` reads them.

ghost use Rattle.std.specs.Prelude.{◌≡◌, [], false, IfOk, codes};
ghost use Rattle.clap.specs.Simple.{App, Shape, app_of, with_rule, with_subcommand};
ghost use Rattle.clap.specs.Walk.{Rule, rule_of};
ghost use Rattle.fk_top_words.specs.Arguments.{File, Image};
ghost use Rattle.fk_top_words.specs.Written.{written, option_rule, trace_rule, IsLocal, alone, leaf};
ghost use Rattle.fk_top_words.specs.Written.{run_parts, put_parts, exec_parts, list_parts};
ghost use Rattle.fk_top_words.specs.Written.{written_replay, written_top, written_app};

use clap::{Arg, ArgAction, Command};
use std::alloc::{AllocError, Global};

// The name of the file that a command reads.
fn file<'a>(alloc: Global) -> Arg<'a>
    ensures rule { rule_of result ≡ written File }
    ensures local { result.global ≡ false }
{
    Arg::new(alloc, "file")
        .action(ArgAction::Set)
        .required(true)
}

// The name of the trace that `replay` reads, its second word.
fn trace<'a>(alloc: Global) -> Arg<'a>
    ensures rule { rule_of result ≡ trace_rule }
    ensures local { result.global ≡ false }
{
    Arg::new(alloc, "trace")
        .action(ArgAction::Set)
        .required(true)
}

// An option that is named by a word, and has a value.
fn option<'a>(alloc: Global, name: &'a str, required: bool) -> Arg<'a>
    ensures rule { rule_of result ≡ option_rule name.now required }
    ensures local { result.global ≡ false }
{
    Arg::new(alloc, name)
        .long(name)
        .action(ArgAction::Set)
        .required(required)
}

// The name of the file that a command puts.
fn image<'a>(alloc: Global) -> Arg<'a>
    ensures rule { rule_of result ≡ written Image }
    ensures local { result.global ≡ false }
{
    Arg::new(alloc, "image")
        .short('o')
        .action(ArgAction::Set)
        .required(true)
}

// A command with one more argument. Fails if there isn't enough memory, or wasn't for the command.
fn taking<'a>(
    command: Result<Command<'a>, AllocError>,
    arg: Arg<'a>,
) -> Result<Command<'a>, AllocError>
    requires { arg.global ≡ false }
    ensures { (app : App) (rule : Rule) → rule_of arg.entry ≡ rule
        → IfOk command.entry (IsLocal app)
        → IfOk result (IsLocal (with_rule app rule)) }
{
    command?.arg(arg)
}

// A command with one more command below it. Fails if there isn't enough memory, or wasn't for
// either.
fn holding<'a>(
    command: Result<Command<'a>, AllocError>,
    inner: Result<Command<'a>, AllocError>,
) -> Result<Command<'a>, AllocError>
    ensures { (app : App) (shape : Shape)
        → IfOk command.entry (λ c. app_of c ≡ app)
        → IfOk inner.entry (IsLocal (alone shape))
        → IfOk result (λ c. app_of c ≡ with_subcommand app shape) }
{
    command?.subcommand(inner?)
}

// A command without further words.
fn bare<'a>(alloc: Global, name: &'a str) -> Result<Command<'a>, AllocError>
    ensures { IfOk result (IsLocal (leaf name.now [])) }
{
    Ok(Command::new(alloc, name))
}

// A command with one word, the name of a file that it reads or a number.
fn reading<'a>(alloc: Global, name: &'a str) -> Result<Command<'a>, AllocError>
    ensures { IfOk result (IsLocal (leaf name.now list_parts)) }
{
    taking(Ok(Command::new(alloc, name)), file(alloc))
}

// A command that runs an image, or a source's image.
fn running<'a>(alloc: Global, name: &'a str) -> Result<Command<'a>, AllocError>
    ensures { IfOk result (IsLocal (leaf name.now exec_parts)) }
{
    let reading = reading(alloc, name);
    let harts = taking(reading, option(alloc, "harts", true));
    taking(harts, option(alloc, "cycles", true))
}

fn run<'a>(alloc: Global) -> Result<Command<'a>, AllocError>
    ensures { IfOk result (IsLocal (leaf (codes "run") run_parts)) }
{
    taking(running(alloc, "run"), option(alloc, "show", false))
}

// The command that reads a source and a trace.
fn replaying<'a>(alloc: Global) -> Result<Command<'a>, AllocError>
    ensures { IfOk result (IsLocal (alone written_replay)) }
{
    taking(reading(alloc, "replay"), trace(alloc))
}

// A command that puts a file, which it makes of another.
fn putting<'a>(alloc: Global, name: &'a str) -> Result<Command<'a>, AllocError>
    ensures { IfOk result (IsLocal (leaf name.now put_parts)) }
{
    taking(reading(alloc, name), image(alloc))
}

// The program. It has no help, so a request for help is no command.
fn program<'a>(alloc: Global) -> Command<'a>
    ensures { app_of result ≡ record { top = written_top; subs = [] } }
{
    Command::new(alloc, "fork95")
        .no_binary_name(true)
        .disable_help_flag(true)
        .disable_help_subcommand(true)
        .subcommand_required(true)
}

/// All commands.
pub(crate) fn commands<'a>(alloc: Global) -> Result<Command<'a>, AllocError>
    ensures { IfOk result (λ c. app_of c ≡ written_app) }
{
    let sources = holding(Ok(program(alloc)), run(alloc));
    let sources = holding(sources, putting(alloc, "build"));
    let images = holding(sources, running(alloc, "exec"));
    let images = holding(images, reading(alloc, "list"));
    let files = holding(images, putting(alloc, "elf"));
    let files = holding(files, putting(alloc, "unelf"));
    let runs = holding(files, running(alloc, "audit"));
    let runs = holding(runs, running(alloc, "trace"));
    let runs = holding(runs, replaying(alloc));
    let runs = holding(runs, reading(alloc, "selftest"));
    holding(runs, bare(alloc, "locks"))
}
