//! The number of a word.

ghost use Rattle.std.specs.Prelude.{◌≡◌, ◌<◌, ◌≤◌, None, Some, true, IfOk, IfErr, OnOk};
ghost use Rattle.std.specs.Prelude.{if◌then◌else◌};
ghost use Rattle.std.specs.Char.{is_ascii_digit};
ghost use Rattle.std.specs.List.{list_all};
ghost use Rattle.std.specs.Str.Parse.{digits_value};
ghost use Rattle.fk_num.specs.Numeral.{is_numeral};
ghost use Rattle.fk_top_input.specs.Input.{fault_of, number_fault, number_of};

use crate::fault::InputFault;
use fk_num::read_unsigned;

/// The magnitude of the least number.
const MOST_NEGATIVE: u32 = 1 << 31;

/// The number that a word stores. The word has this place in its text, which may have `limit`.
pub(crate) fn number_within(word: &[u8], place: u32, limit: u32) -> Result<u32, InputFault>
    ensures number { IfOk result (λ n. n ≡ number_of word.now) }
    ensures fits { OnOk result (fault_of limit (place, word.now) ≡ None) }
    ensures fault { IfErr result (λ fault. fault_of limit (place, word.now) ≡ Some fault) }
{
    if place > limit {
        return Err(InputFault::TooMany(place));
    }
    read_number(word, place)
}

/// The number that a word stores. The word has this place in its text.
fn read_number(word: &[u8], place: u32) -> Result<u32, InputFault>
    ensures number { IfOk result (λ n. n ≡ number_of word.now) }
    ensures fits { IfOk result (λ n. number_fault place word.now ≡ None) }
    ensures fault { IfErr result (λ fault. number_fault place word.now ≡ Some fault) }
{
    match word {
        [b'-', digits @ ..] => {
            let magnitude = read_digits(digits, MOST_NEGATIVE, place)?;
            Ok(magnitude.wrapping_neg())
        }
        digits => read_digits(digits, u32::MAX, place),
    }
}

/// The number of decimal digits, if it is at most this.
fn read_digits(digits: &[u8], most: u32, place: u32) -> Result<u32, InputFault>
    ensures number { IfOk result
        (λ n. (is_numeral digits.now ≡ true) × (digits_value 10 digits.now ≡ n) × (n ≤ most)) }
    ensures fault { IfErr result (λ fault. fault ≡ (if is_numeral digits.now
        then InputFault.OutOfRange place else InputFault.NotANumber place)) }
    ensures too_large { IfErr result (λ fault. is_numeral digits.now ≡ true
        → most < digits_value 10 digits.now) }
{
    if !is_numeral(digits) {
        return Err(InputFault::NotANumber(place));
    }
    match read_unsigned(digits) {
        Some(number) if number <= most => Ok(number),
        _ => Err(InputFault::OutOfRange(place)),
    }
}

/// One or more decimal digits, and nothing else.
fn is_numeral(text: &[u8]) -> bool
    ensures { result ≡ is_numeral text.now }
{
    !text.is_empty() && are_digits(text)
}

fn are_digits(text: &[u8]) -> bool
    ensures { result ≡ list_all is_ascii_digit text.now }
{
    text.iter().all(|byte| byte.is_ascii_digit())
}
