//! Laws of the tokens of a text that begins with the text of the lock.

ghost use Rattle.fk_locks_tokens.specs.Tokens.{LockTokensFirst};

/// The tokens of a text that begins with the text of the lock begin with those of the lock.
pub fn lock_tokens_first()
    ensures { LockTokensFirst }
{}
