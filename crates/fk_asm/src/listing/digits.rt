//! Hexadecimal digits.

ghost use Rattle.std.specs.Prelude.{◌≡◌, ◌+◌, ◌<◌, ◌≤◌, ◌++◌, false, length};
ghost use Rattle.std.specs.Fmt.{digit_glyph};
ghost use Rattle.arrayvec.specs.ArrayVec.{array_vec_len};
ghost use Rattle.fk_asm.specs.Listing.{digit_at, eight_digits, hexadecimal};

use arrayvec::ArrayVec;

// The hexadecimal digit of a value below 16.
fn digit(value: u32) -> u8
    requires { value < 16 }
    ensures { result ≡ digit_glyph false value }
{
    let value = value as u8;
    if value < 10 {
        b'0' + value
    } else {
        b'a' + (value - 10)
    }
}

/// Appends a number in hexadecimal, without leading zeros.
#[tactic(auto, using(crate::proofs::Hexadecimal::hexadecimal_digits))]
pub fn append_hexadecimal(text: &mut ArrayVec<u8, 48>, number: u32)
    requires room { array_vec_len text.old + length (hexadecimal number) ≤ 48 }
    ensures items { text.new.items ≡ text.old.items ++ hexadecimal number }
    ensures len { array_vec_len text.new ≡ array_vec_len text.old + length (hexadecimal number) }
{
    if number < 16 {
        text.push(digit(number));
        return;
    }
    append_hexadecimal(text, number / 16);
    text.push(digit(number % 16));
}

// The digit of a word at a place, counted from the last digit on.
fn digit_at(word: u32, place: u32) -> u8
    requires { place < 8 }
    ensures { result ≡ digit_at word place }
{
    digit((word >> (4 * place)) % 16)
}

/// A word in eight hexadecimal digits.
#[tactic(auto, unfolding(crate::specs::Listing::eight_digits))]
pub fn eight_digits(word: u32) -> [u8; 8]
    ensures { result ≡ eight_digits word }
{
    [
        digit_at(word, 7),
        digit_at(word, 6),
        digit_at(word, 5),
        digit_at(word, 4),
        digit_at(word, 3),
        digit_at(word, 2),
        digit_at(word, 1),
        digit_at(word, 0),
    ]
}
