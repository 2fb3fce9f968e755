//! The words of a text.

ghost use Rattle.std.specs.Prelude.{◌≡◌, ◌+◌, ◌≤◌, [], ◌∷◌, length, not, IfSome, MatchOption};
ghost use Rattle.std.specs.List.{position, take_while};
ghost use Rattle.fk_top_input.specs.Input.{is_blank, words};

fn is_blank(byte: u8) -> bool
    ensures { result ≡ is_blank byte }
{
    matches!(byte, b'\t' | b'\n' | b'\r' | b' ')
}

/// The index where the first word of a text begins.
fn word_start(text: &[u8]) -> Option<usize>
    ensures { result ≡ position (λ byte. not (is_blank byte)) text.now }
{
    text.iter().position(|byte| !is_blank(*byte))
}

/// The index where the word ends with which a text begins.
fn word_end(text: &[u8]) -> usize
    ensures { result ≡ length (take_while (λ byte. not (is_blank byte)) text.now) }
{
    text.iter().take_while(|byte| !is_blank(**byte)).count()
}

/// The first word of a text, and the text after it.
pub(crate) fn first_word(text: &[u8]) -> Option<(&[u8], &[u8])>
    ensures word { MatchOption result (words text.now ≡ [])
        (λ p. words text.now ≡ p.0.now ∷ words p.1.now) }
    ensures shorter { IfSome result (λ p. length p.1.now + 1 ≤ length text.now) }
{
    let start = word_start(text)?;
    let word = &text[start..];
    Some(word.split_at(word_end(word)))
}
