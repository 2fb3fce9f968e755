//! Laws of the programs of texts, those first that begin with the text of the lock.

ghost use Rattle.fk_locks_text.specs.Texts.{TextsHaveLocks, TextsAreCorrect};

/// If a text begins with the text of the lock and its program keeps the forty rules, the first two
/// functions of the program are those of the lock, and have its code.
pub fn texts_have_locks()
    ensures { TextsHaveLocks }
{}

/// A program that keeps the forty rules is correct, if its text isn't too long: its tokens identify
/// its nodes, and there are at most 2^20 of them.
pub fn texts_are_correct()
    ensures { TextsAreCorrect }
{}
