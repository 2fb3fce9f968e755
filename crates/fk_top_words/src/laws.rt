//! Laws of the commands, which no code runs.

ghost use Rattle.fk_top_words.specs.Command.{OneCommand};

/// Words are at most one command.
pub fn one_command()
    ensures { OneCommand }
{}
