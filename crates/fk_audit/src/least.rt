//! The least of words.

ghost use Rattle.std.specs.Prelude.{◌≡◌};
ghost use Rattle.fk_audit.specs.Mark.{least_of, lesser};

/// The lesser of a word and the least one so far, if there was one.
#[inline(always)]
pub fn lesser(least: Option<u32>, word: u32) -> Option<u32>
    ensures { result ≡ lesser least word }
{
    match least {
        Some(least) => Some(least.min(word)),
        None => Some(word),
    }
}

/// The lesser of two words, of which each may be missing.
pub fn least_of(least: Option<u32>, other: Option<u32>) -> Option<u32>
    ensures { result ≡ least_of least other }
{
    match other {
        Some(word) => lesser(least, word),
        None => least,
    }
}
