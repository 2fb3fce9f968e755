//! A variable that is to be shown.

ghost use Rattle.std.specs.Prelude.{◌≤◌, ◌+◌};
ghost use Rattle.fk_num.specs.Limits.{most_data_words};

/// A variable to be shown: its words in shared data are those from `first` on.
#[derive(Clone, Copy)]
pub struct Variable<'a> {
    pub name: &'a str,
    pub first: u32,
    pub words: u32,
    /// Whether the words are shown as signed numbers.
    pub signed: bool,
    ghost few: { first + words ≤ most_data_words },
}
