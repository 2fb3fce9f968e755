//! The command that values stand for.

ghost use Rattle.std.specs.Prelude.{◌≡◌, ℕ, ◌≤◌, Some, IfErr, IfOk, IfSome, IsNone, IsOkUnless};
ghost use Rattle.std.specs.Prelude.{option_map};
ghost use Rattle.clap.specs.Matches.{found_of};
ghost use Rattle.clap.specs.Simple.{subcommand_rows_of};
ghost use Rattle.clap.specs.Walk.{first_of, rows_of};
ghost use Rattle.fk_top_words.specs.Asked.{AsksFor, AsksOf, RunsBy, StatementsBy, number_of};
ghost use Rattle.fk_top_words.specs.Command.{Command, command_of};

use crate::command::{CommandWords, RunWords};
use crate::fault::WordsFault;
use clap::ArgMatches;
use fk_num::read_unsigned;

/// The command that these matches ask for, or that their words are no command.
pub(crate) fn asked<'a>(matches: &ArgMatches<'a>) -> Result<CommandWords<'a>, WordsFault>
    ensures some { IfOk result (λ c. AsksOf (subcommand_rows_of matches.now) (command_of c)) }
    ensures none { IfErr result
        (λ _. (c : Command) → AsksOf (subcommand_rows_of matches.now) c → ⊥) }
    ensures fault { IsOkUnless result WordsFault.Usage }
{
    asked_by(matches).ok_or(WordsFault::Usage)
}

/// The command that these matches ask for, if they ask for one.
fn asked_by<'a>(matches: &ArgMatches<'a>) -> Option<CommandWords<'a>>
    ensures some { IfSome result (λ c. AsksOf (subcommand_rows_of matches.now) (command_of c)) }
    ensures none { IsNone result → (c : Command) → AsksOf (subcommand_rows_of matches.now) c → ⊥ }
{
    let (name, given) = matches.subcommand()?;
    asked_for(given, name)
}

/// The command of this name that these values stand for.
fn asked_for<'a>(given: &ArgMatches<'a>, name: &str) -> Option<CommandWords<'a>>
    ensures some { IfSome result
        (λ c. AsksFor name.now (rows_of (found_of given.now)) (command_of c)) }
    ensures none { IsNone result → (c : Command)
        → AsksFor name.now (rows_of (found_of given.now)) c → ⊥ }
{
    let file = text_of(given, "file");
    match name {
        "run" => Some(CommandWords::Run(file?, asked_run(given)?, text_of(given, "show"))),
        "build" => Some(CommandWords::Build(file?, text_of(given, "image")?)),
        "exec" => Some(CommandWords::Exec(file?, asked_run(given)?)),
        "list" => Some(CommandWords::List(file?)),
        "elf" => Some(CommandWords::Elf(file?, text_of(given, "image")?)),
        "unelf" => Some(CommandWords::Unelf(file?, text_of(given, "image")?)),
        "audit" => Some(CommandWords::Audit(file?, asked_run(given)?)),
        "trace" => Some(CommandWords::Trace(file?, asked_run(given)?)),
        "replay" => Some(CommandWords::Replay(file?, text_of(given, "trace")?)),
        "selftest" => Some(CommandWords::Selftest(asked_statements(given)?)),
        "locks" => Some(CommandWords::Locks),
        _ => None,
    }
}

/// The run with these values, if its numbers are in range.
fn asked_run(given: &ArgMatches<'_>) -> Option<RunWords>
    ensures some { IfSome result
        (λ run. RunsBy (rows_of (found_of given.now)) run.harts run.cycles) }
    ensures none { IsNone result → (p : ℕ) (n : ℕ) → RunsBy (rows_of (found_of given.now)) p n → ⊥ }
{
    let harts = number_of(given, "harts")?;
    let cycles = number_of(given, "cycles")?;
    if harts < 1 || harts > 1024 {
        return None;
    }
    Some(RunWords { harts, cycles })
}

/// The number of statements with these values, if it is in range.
fn asked_statements(given: &ArgMatches<'_>) -> Option<u32>
    ensures some { IfSome result (StatementsBy (rows_of (found_of given.now))) }
    ensures none { IsNone result → (n : ℕ) → StatementsBy (rows_of (found_of given.now)) n → ⊥ }
{
    let statements = number_of(given, "file")?;
    if statements < 1 || statements > 500 {
        return None;
    }
    Some(statements)
}

/// The number that is found for an argument.
fn number_of(given: &ArgMatches<'_>, id: &str) -> Option<u32>
    ensures { result ≡ number_of id.now (rows_of (found_of given.now)) }
{
    read_unsigned(text_of(given, id)?.as_bytes())
}

/// The text that is found for an argument.
fn text_of<'a>(given: &ArgMatches<'a>, id: &str) -> Option<&'a str>
    ensures { option_map (λ s. s.now) result ≡ first_of id.now (rows_of (found_of given.now)) }
{
    given.get_str(id)
}
