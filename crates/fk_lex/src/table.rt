//! Words, keywords and signs.

ghost use Rattle.std.specs.Prelude.{◌≡◌, ℕ, ◌≤◌, ◌<◌, ◌==◌, ◌&&◌, length, drop, take, map};
ghost use Rattle.std.specs.Prelude.{slice_index, nat_le, true, false, List, [], ◌∷◌};
ghost use Rattle.std.specs.List.{prefix_len};
ghost use Rattle.fk_lex.specs.Bytes;
ghost use Rattle.fk_lex.specs.Kinds;
ghost use Rattle.fk_lex.specs.Steps.{TokenStep, beginning};
ghost use Rattle.fk_lex.specs.View.{entry_of};

use crate::bytes::{byte_at, is_word_byte};
use crate::step::{FaultKind, Step};
use crate::token::TokenKind;

/// The step for a text that begins with a letter or `_`: a word or a keyword.
pub fn word_step(text: &[u8]) -> Step
    requires some { 0 < length text.now }
    requires letter { Bytes.is_letter (slice_index text.now 0) ≡ true }
    ensures { TokenStep text.now result }
{
    let size = word_length(text);
    Step::Token(size, word_kind(text.split_at(size).0))
}

/// The number of letters, digits and `_` at the beginning of a text.
fn word_length(text: &[u8]) -> usize
    ensures within { result ≤ length text.now }
    ensures value { result ≡ prefix_len Bytes.is_word_byte text.now }
{
    text.iter().take_while(|byte| is_word_byte(**byte)).count()
}

/// The kind of a word: its keyword, or `Word` if it isn't a keyword.
fn word_kind(word: &[u8]) -> TokenKind
    requires { 0 < length word.now }
    ensures { result ≡ Kinds.or_word (Kinds.lookup Kinds.keywords word.now) }
{
    keyword_of(word[0], word).unwrap_or(TokenKind::Word)
}

/// The keyword that a word with this first letter spells.
fn keyword_of(first: u8, word: &[u8]) -> Option<TokenKind>
    requires { (cs : List ℕ) × (word.now ≡ first ∷ cs) }
    ensures { result ≡ Kinds.lookup Kinds.keywords word.now }
{
    match first {
        b'a' => lookup(&[(b"async", TokenKind::Async)], word),
        b'b' => lookup(
            &[
                (b"barrier", TokenKind::Barrier),
                (b"break", TokenKind::Break),
            ],
            word,
        ),
        b'c' => lookup(&[(b"continue", TokenKind::Continue)], word),
        b'd' => lookup(&[(b"do", TokenKind::Do)], word),
        b'e' => lookup(&[(b"else", TokenKind::Else)], word),
        b'f' => lookup(
            &[
                (b"for", TokenKind::For),
                (b"farm", TokenKind::Farm),
                (b"fork", TokenKind::Fork),
            ],
            word,
        ),
        b'i' => lookup(&[(b"int", TokenKind::Int), (b"if", TokenKind::If)], word),
        b'j' => lookup(&[(b"join", TokenKind::Join)], word),
        b'p' => lookup(&[(b"pr", TokenKind::Pr), (b"puts", TokenKind::Puts)], word),
        b'r' => lookup(&[(b"return", TokenKind::Return)], word),
        b's' => lookup(
            &[
                (b"struct", TokenKind::Struct),
                (b"sh", TokenKind::Sh),
                (b"sync", TokenKind::Sync),
                (b"straight", TokenKind::Straight),
                (b"start", TokenKind::Start),
                (b"seq", TokenKind::Seq),
                (b"sizeof", TokenKind::Sizeof),
            ],
            word,
        ),
        b'u' => lookup(&[(b"unsigned", TokenKind::Unsigned)], word),
        b'v' => lookup(&[(b"void", TokenKind::Void)], word),
        b'w' => lookup(&[(b"while", TokenKind::While)], word),
        _ => None,
    }
}

/// The step for a text that begins with neither letter nor digit: the longest sign, or a bad byte.
pub fn sign_step(text: &[u8]) -> Step
    requires some { 0 < length text.now }
    requires letter { Bytes.is_letter (slice_index text.now 0) ≡ false }
    requires digit { Bytes.is_digit (slice_index text.now 0) ≡ false }
    ensures { TokenStep text.now result }
{
    let first = text[0];
    let second = byte_at(text, 1);
    let third = byte_at(text, 2);
    if let Some(sign) = triple_sign(first, second, third) {
        return Step::Token(3, sign);
    }
    if let Some(sign) = double_sign(first, second) {
        return Step::Token(2, sign);
    }
    match single_sign(first) {
        Some(sign) => Step::Token(1, sign),
        None => Step::Fault(0, FaultKind::BadByte),
    }
}

/// The sign that these three bytes spell.
fn triple_sign(first: u8, second: u8, third: u8) -> Option<TokenKind>
    ensures { result ≡ Kinds.lookup Kinds.triple_signs (first ∷ second ∷ third ∷ []) }
{
    match (first, second, third) {
        (b'<', b'<', b'=') => Some(TokenKind::ShiftLeftAssign),
        (b'>', b'>', b'=') => Some(TokenKind::ShiftRightAssign),
        _ => None,
    }
}

/// The sign that these two bytes spell.
fn double_sign(first: u8, second: u8) -> Option<TokenKind>
    ensures { result ≡ Kinds.lookup Kinds.double_signs (first ∷ second ∷ []) }
{
    match (first, second) {
        (b'<', b'<') => Some(TokenKind::ShiftLeft),
        (b'>', b'>') => Some(TokenKind::ShiftRight),
        (b'<', b'=') => Some(TokenKind::LessOrEqual),
        (b'>', b'=') => Some(TokenKind::GreaterOrEqual),
        (b'=', b'=') => Some(TokenKind::EqualTo),
        (b'!', b'=') => Some(TokenKind::NotEqualTo),
        (b'&', b'&') => Some(TokenKind::AndAnd),
        (b'|', b'|') => Some(TokenKind::OrOr),
        (b'+', b'=') => Some(TokenKind::PlusAssign),
        (b'-', b'=') => Some(TokenKind::MinusAssign),
        (b'*', b'=') => Some(TokenKind::StarAssign),
        (b'/', b'=') => Some(TokenKind::SlashAssign),
        (b'%', b'=') => Some(TokenKind::PercentAssign),
        (b'&', b'=') => Some(TokenKind::AmpersandAssign),
        (b'|', b'=') => Some(TokenKind::BarAssign),
        (b'^', b'=') => Some(TokenKind::CaretAssign),
        (b'+', b'+') => Some(TokenKind::Increment),
        (b'-', b'-') => Some(TokenKind::Decrement),
        (b'-', b'>') => Some(TokenKind::Arrow),
        _ => None,
    }
}

/// The sign that this byte spells.
fn single_sign(byte: u8) -> Option<TokenKind>
    ensures { result ≡ Kinds.lookup Kinds.single_signs (byte ∷ []) }
{
    match byte {
        b'+' => Some(TokenKind::Plus),
        b'-' => Some(TokenKind::Minus),
        b'*' => Some(TokenKind::Star),
        b'/' => Some(TokenKind::Slash),
        b'%' => Some(TokenKind::Percent),
        b'&' => Some(TokenKind::Ampersand),
        b'|' => Some(TokenKind::Bar),
        b'^' => Some(TokenKind::Caret),
        b'~' => Some(TokenKind::Tilde),
        b'!' => Some(TokenKind::Exclamation),
        b'<' => Some(TokenKind::LessThan),
        b'>' => Some(TokenKind::GreaterThan),
        b'=' => Some(TokenKind::Assign),
        b'?' => Some(TokenKind::Question),
        b':' => Some(TokenKind::Colon),
        b',' => Some(TokenKind::Comma),
        b';' => Some(TokenKind::Semicolon),
        b'(' => Some(TokenKind::OpenParenthesis),
        b')' => Some(TokenKind::CloseParenthesis),
        b'{' => Some(TokenKind::OpenBrace),
        b'}' => Some(TokenKind::CloseBrace),
        b'[' => Some(TokenKind::OpenBracket),
        b']' => Some(TokenKind::CloseBracket),
        b'.' => Some(TokenKind::Dot),
        b'@' => Some(TokenKind::At),
        b'$' => Some(TokenKind::Dollar),
        _ => None,
    }
}

/// The kind that a table has for these bytes.
#[inline(always)]
fn lookup(table: &[(&[u8], TokenKind)], bytes: &[u8]) -> Option<TokenKind>
    ensures { result ≡ Kinds.lookup (map entry_of table.now) bytes.now }
{
    for (spelling, kind) in table {
        if *spelling == bytes {
            return Some(*kind);
        }
    }
    None
}
