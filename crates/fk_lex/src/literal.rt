//! Character constants and texts.

ghost use Rattle.std.specs.Prelude.{◌≡◌, ℕ, ◌+◌, ◌<◌, ◌^◌, length, slice_index, IfSome, IfNone};
ghost use Rattle.fk_lex.specs.Bytes;
ghost use Rattle.fk_lex.specs.Moves;
ghost use Rattle.fk_lex.specs.Steps;
ghost use Rattle.fk_lex.specs.Texts.{TextStep};
ghost use Rattle.fk_lex.specs.declared.step.FaultKind.TheVariants.{BadByte};
ghost use Rattle.fk_lex.specs.declared.step.Step.TheVariants.{Token, Fault};
ghost use Rattle.fk_lex.specs.declared.token.TokenKind.TheVariants.{Text};

use crate::bytes::{byte_at, escape_value, is_plain};
use crate::step::{FaultKind, Step};
use crate::token::TokenKind;

/// The step for a text that begins with `'`: a character constant, or a bad byte.
pub fn character_step(text: &[u8]) -> Step
    ensures { result ≡ Steps.character_step text.now }
{
    character_of(byte_at(text, 1), byte_at(text, 2), byte_at(text, 3))
}

/// The step for a character constant whose opening quote is followed by these three bytes.
fn character_of(first: u8, second: u8, third: u8) -> Step
    ensures { result ≡ Steps.character_of first second third }
{
    if is_plain(b'\'', first) && second == b'\'' {
        return Step::Token(3, TokenKind::Number(first as u32, false));
    }
    if first == b'\\' && third == b'\'' {
        return escaped(second);
    }
    Step::Fault(0, FaultKind::BadByte)
}

/// The step for a character constant that is a backslash and this byte.
fn escaped(byte: u8) -> Step
    ensures { result ≡ Steps.escaped (Bytes.escape_value byte) }
{
    match escape_value(byte) {
        Some(value) => Step::Token(4, TokenKind::Number(value as u32, false)),
        None => Step::Fault(0, FaultKind::BadByte),
    }
}

/// The step for a source text that begins with `"`: a text, or a fault.
pub fn text_step(text: &[u8]) -> Step
    requires some { 0 < length text.now }
    requires quote { slice_index text.now 0 ≡ 34 }
    ensures { TextStep text.now result }
{
    let (_, body) = text.split_at(1);
    let mut at = 0;
    let mut bad = None;
    while at < body.len() && body[at] != b'\n' {
        if body[at] == b'"' {
            return closed(at, bad);
        }
        match part_size(body[at], byte_at(body, at + 1)) {
            Some(size) => at += size,
            None => {
                bad = bad.or(Some(at));
                at += 1;
            }
        }
    }
    Step::Fault(0, FaultKind::OpenString)
}

/// The step for a closed text with `size` bytes between its quotes. `bad` is the index of the first
/// bad byte among them.
fn closed(size: usize, bad: Option<usize>) -> Step
    requires size { size + 2 < 2 ^ 64 }
    requires bad { IfSome bad (λ n. n < size) }
    ensures good { IfNone bad (result ≡ Token (size + 2) Text) }
    ensures bad { IfSome bad (λ n. result ≡ Fault (n + 1) BadByte) }
{
    match bad {
        None => Step::Token(size + 2, TokenKind::Text),
        Some(bad) => Step::Fault(bad + 1, FaultKind::BadByte),
    }
}

/// The size in bytes of the escape or the plain byte at the beginning of these two bytes; `None` if
/// they begin with neither.
fn part_size(first: u8, second: u8) -> Option<usize>
    ensures { result ≡ Moves.part_size first second }
{
    if first == b'\\' {
        return if escape_value(second).is_some() {
            Some(2)
        } else {
            None
        };
    }
    if is_plain(b'"', first) { Some(1) } else { None }
}
