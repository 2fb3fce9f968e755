//! Parts of a text.

ghost use Rattle.std.specs.Prelude.{◌≡◌, ◌≢◌, ◌^◌, ◌<◌, ◌==◌, not, ℕ, List, ◌++◌, decimal, length};
ghost use Rattle.std.specs.Prelude.{IfSome, MatchOption};
ghost use Rattle.std.specs.List.{take_while};
ghost use Rattle.fk_replay_text.specs.Texts.{Lacks, IsCut, IsWord};

use fk_num::read_unsigned;

/// What is behind a prefix, if the text begins with it.
pub(crate) fn after<'a>(text: &'a [u8], prefix: &[u8]) -> Option<&'a [u8]>
    ensures { MatchOption result ((rest : List ℕ) → text.now ≢ prefix.now ++ rest)
        (λ rest. text.now ≡ prefix.now ++ rest.now) }
{
    text.strip_prefix(prefix)
}

/// The number of bytes before the first such byte, or of all bytes.
fn length_before(text: &[u8], byte: u8) -> usize
    ensures { result ≡ length (take_while (λ b. not (b == byte)) text.now) }
{
    text.iter().take_while(|b| **b != byte).count()
}

/// The text before the first such byte, and the text behind it.
pub(crate) fn cut(text: &[u8], byte: u8) -> Option<(&[u8], &[u8])>
    ensures { MatchOption result (Lacks byte text.now)
        (λ parts. IsCut byte text.now parts.0.now parts.1.now) }
{
    let end = length_before(text, byte);
    if end == text.len() {
        return None;
    }
    Some((&text[..end], &text[end + 1..]))
}

/// The first word of a text, up to a blank, and what is behind it.
pub(crate) fn first_word(text: &[u8]) -> (&[u8], &[u8])
    ensures { IsWord text.now result.0.now result.1.now }
{
    text.split_at(length_before(text, b' '))
}

/// The number whose decimal text this is, if it is below 2^32.
pub(crate) fn read_number(text: &[u8]) -> Option<u32>
    ensures number { MatchOption result ((n : ℕ) → n < 2 ^ 32 → text.now ≢ decimal n)
        (λ n. text.now ≡ decimal n) }
    ensures word { IfSome result (λ n. n < 2 ^ 32) }
{
    if text.len() > 1 && text[0] == b'0' {
        return None;
    }
    read_unsigned(text)
}
