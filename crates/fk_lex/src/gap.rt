//! Blanks, comments and include lines.

ghost use Rattle.std.specs.Prelude.{◌≡◌, ℕ, ◌+◌, ◌≤◌, ◌<◌, ◌==◌, not, drop, length, IfSome, IfNone};
ghost use Rattle.std.specs.List.{prefix_len};
ghost use Rattle.fk_lex.specs.Bytes;
ghost use Rattle.fk_lex.specs.Steps;
ghost use Rattle.fk_lex.specs.Steps.{CommentStep, CommentTo, EndsAt};

use crate::bytes::{are_blanks, byte_at, is_blank};
use crate::step::{Beginning, FaultKind, Step};

/// The class of what begins at the first two bytes of a text. A byte past the end counts as 0.
pub fn beginning(text: &[u8]) -> Beginning
    ensures { result ≡ Steps.beginning text.now }
{
    beginning_of(byte_at(text, 0), byte_at(text, 1))
}

/// The class of what begins with these two bytes.
fn beginning_of(first: u8, second: u8) -> Beginning
    ensures { result ≡ Steps.beginning_of first second }
{
    match first {
        b' ' | b'\t' | b'\r' | b'\n' => Beginning::Blank,
        b'/' if second == b'*' => Beginning::Comment,
        b'/' if second == b'/' => Beginning::LineComment,
        b'#' => Beginning::Directive,
        b'\'' => Beginning::Character,
        b'"' => Beginning::Text,
        _ => Beginning::Other,
    }
}

/// The number of bytes before the end of the first line.
pub fn line_length(text: &[u8]) -> usize
    ensures within { result ≤ length text.now }
    ensures value { result ≡ Steps.line_length text.now }
{
    text.iter().take_while(|byte| **byte != b'\n').count()
}

/// The step for a text that begins with `/*`: the comment, or a fault if it isn't closed.
pub fn comment_step(text: &[u8]) -> Step
    ensures { CommentStep text.now result }
{
    match comment_end(text) {
        Some(end) => Step::Gap(end + 2),
        None => Step::Fault(0, FaultKind::OpenComment),
    }
}

/// The index of the first `*/` after the first two bytes.
fn comment_end(text: &[u8]) -> Option<usize>
    ensures some { IfSome result (λ n. CommentTo text.now n) }
    ensures within { IfSome result (λ n. n + 1 < length text.now) }
    ensures none { IfNone result ((m : ℕ) → 2 ≤ m → EndsAt text.now m → ⊥) }
{
    for at in 2..text.len().saturating_sub(1) {
        if text[at] == b'*' && text[at + 1] == b'/' {
            return Some(at);
        }
    }
    None
}

/// The step for a text that begins with `#`: an include line, or a bad byte. An include line has
/// only blanks before it in its line.
pub fn directive_step(only_blanks: bool, text: &[u8]) -> Step
    ensures { result ≡ Steps.directive_step only_blanks text.now }
{
    let size = line_length(text);
    if only_blanks && is_include(text.split_at(size).0) {
        Step::Gap(size)
    } else {
        Step::Fault(0, FaultKind::BadByte)
    }
}

/// Whether a line is `#include`, any blanks, `<fork.h>` or `<io.h>`, and any blanks.
fn is_include(line: &[u8]) -> bool
    ensures { result ≡ Steps.is_include line.now }
{
    let name: &[u8] = b"#include";
    match line.split_at_checked(name.len()) {
        Some((front, rest)) => { name == front && is_header(rest.split_at(blank_length(rest)).1) }
        None => false,
    }
}

/// The number of blanks that a text begins with.
fn blank_length(text: &[u8]) -> usize
    ensures within { result ≤ length text.now }
    ensures value { result ≡ prefix_len Bytes.is_blank text.now }
{
    text.iter().take_while(|byte| is_blank(**byte)).count()
}

/// Whether a text is `<fork.h>` or `<io.h>`, and then any blanks.
fn is_header(text: &[u8]) -> bool
    ensures { result ≡ Steps.is_header text.now }
{
    is_named(b"<fork.h>", text) || is_named(b"<io.h>", text)
}

/// Whether a text is this name, and then any blanks.
fn is_named(name: &[u8], text: &[u8]) -> bool
    ensures { result ≡ Steps.is_named name.now text.now }
{
    match text.split_at_checked(name.len()) {
        Some((front, rest)) => name == front && are_blanks(rest),
        None => false,
    }
}
