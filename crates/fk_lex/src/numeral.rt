//! Numbers.

ghost use Rattle.std.specs.Prelude.{◌≡◌, ℕ, ◌+◌, ◌≤◌, ◌<◌, ◌^◌, length, slice_index, SomeIff, true};
ghost use Rattle.std.specs.Prelude.{false, nat_lt, nat_le, ◌||◌, List, [], ◌∷◌, Option};
ghost use Rattle.std.specs.List.{prefix_len};
ghost use Rattle.fk_lex.specs.Bytes;
ghost use Rattle.fk_lex.specs.Kinds;
ghost use Rattle.fk_lex.specs.Steps.{TokenStep};

use crate::bytes::{byte_at, digit_value, is_suffix, is_word_byte, is_x};
use crate::step::{FaultKind, Step};
use crate::token::TokenKind;

/// The step for a text that begins with a digit: a number, or a fault.
pub fn numeral_step(text: &[u8]) -> Step
    requires some { 0 < length text.now }
    requires digit { Bytes.is_digit (slice_index text.now 0) ≡ true }
    ensures { TokenStep text.now result }
{
    let size = numeral_length(text);
    match number_of(text.split_at(size).0) {
        None => Step::Fault(0, FaultKind::WideNumber),
        Some(_) if is_word_byte(byte_at(text, size)) => Step::Fault(size, FaultKind::BadByte),
        Some(kind) => Step::Token(size, kind),
    }
}

/// The number of bytes of the longest number at the beginning of a text.
fn numeral_length(text: &[u8]) -> usize
    requires some { 0 < length text.now }
    requires digit { Bytes.is_digit (slice_index text.now 0) ≡ true }
    ensures { Kinds.LongestNumeral text.now result }
{
    if text[0] != b'0' {
        return 1 + tail_length(10, text.split_at(1).1);
    }
    if text.len() > 2 && is_hexadecimal(text[1], text[2]) {
        return 3 + tail_length(16, text.split_at(3).1);
    }
    1 + tail_length(8, text.split_at(1).1)
}

/// The number of bytes at the beginning of a text that are digits of a base, and then at most one
/// `u` or `U`.
fn tail_length(base: u32, text: &[u8]) -> usize
    ensures { Kinds.LongestTail base text.now result }
{
    let digits = digits_length(base, text);
    if digits < text.len() && is_suffix(text[digits]) {
        digits + 1
    } else {
        digits
    }
}

/// The number of digits of a base at the beginning of a text.
fn digits_length(base: u32, text: &[u8]) -> usize
    ensures within { result ≤ length text.now }
    ensures value { result ≡ prefix_len (λ c. nat_lt (Bytes.digit_value c) base) text.now }
{
    text.iter()
        .take_while(|byte| digit_value(**byte) < base)
        .count()
}

/// Whether two bytes are `x` or `X` and a hexadecimal digit.
fn is_hexadecimal(first: u8, second: u8) -> bool
    ensures { result ≡ Kinds.is_hexadecimal (first ∷ second ∷ []) }
{
    is_x(first) && digit_value(second) < 16
}

/// The number that a numeral spells, with its type; `None` from 2^32 on.
fn number_of(numeral: &[u8]) -> Option<TokenKind>
    requires { 0 < length numeral.now }
    ensures { result ≡ Kinds.number_of numeral.now }
{
    match numeral_value(numeral) {
        Some(value) => {
            let unsigned = is_unsigned(numeral[numeral.len() - 1], value);
            Some(TokenKind::Number(value, unsigned))
        }
        None => None,
    }
}

/// Whether a number with this last byte and value is `unsigned`.
fn is_unsigned(last: u8, value: u32) -> bool
    ensures { result ≡ (Bytes.is_suffix last || nat_le (2 ^ 31) value) }
{
    is_suffix(last) || value >= 1 << 31
}

/// The value of a numeral; `None` from 2^32 on.
fn numeral_value(numeral: &[u8]) -> Option<u32>
    requires { 0 < length numeral.now }
    ensures { let value = Kinds.numeral_value numeral.now in SomeIff result (value < 2 ^ 32) value }
{
    if numeral[0] != b'0' {
        return value_in(10, numeral);
    }
    if numeral.len() > 1 && is_x(numeral[1]) {
        return value_in(16, numeral.split_at(2).1);
    }
    value_in(8, numeral)
}

/// The value of the digits of a base at the beginning of a text; `None` from 2^32 on.
fn value_in(base: u32, digits: &[u8]) -> Option<u32>
    requires { 0 < base }
    ensures { let value = Kinds.value_in base 0 digits.now in
        SomeIff result (value < 2 ^ 32) value }
{
    let mut value: u32 = 0;
    for byte in digits {
        let digit = digit_value(*byte);
        if digit >= base {
            return Some(value);
        }
        value = value.checked_mul(base)?.checked_add(digit)?;
    }
    Some(value)
}
