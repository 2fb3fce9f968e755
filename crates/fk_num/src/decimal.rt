//! The decimal texts of words.
ghost use Rattle.std.specs.Prelude.{◌≡◌, decimal};
ghost use Rattle.std.specs.Fmt.{signed_decimal};
ghost use Rattle.fk_num.specs.Numeral.{one_more_digit, read_word};
ghost use Rattle.fk_num.specs.Word.{signed};

use arrayvec::ArrayVec;
use itoa::Buffer;

/// The decimal text of a word's signed value. It takes no memory.
pub fn signed_text(v: u32) -> ArrayVec<u8, 11>
    ensures { result.items ≡ signed_decimal (signed v) }
{
    let mut buffer = Buffer::new();
    let text = buffer.format(v.cast_signed());
    let mut digits = ArrayVec::new();
    let _fits = digits.try_extend_from_slice(text.as_bytes());
    digits
}

/// The decimal text of a word's unsigned value. It takes no memory.
pub fn unsigned_text(v: u32) -> ArrayVec<u8, 10>
    ensures { result.items ≡ decimal v }
{
    let mut buffer = Buffer::new();
    let text = buffer.format(v);
    let mut digits = ArrayVec::new();
    let _fits = digits.try_extend_from_slice(text.as_bytes());
    digits
}

/// The word that a text denotes. It is `None` exactly if the text isn't one or more decimal digits
/// of a number below 2^32. Leading zeros are allowed. It takes no memory.
pub fn read_unsigned(text: &[u8]) -> Option<u32>
    ensures { result ≡ read_word text.now }
{
    if text.is_empty() {
        return None;
    }
    let mut value: u32 = 0;
    for byte in text {
        value = with_digit(value, *byte)?;
    }
    Some(value)
}

/// The number that results from adding one more digit; `None` from 2^32 on.
fn with_digit(value: u32, byte: u8) -> Option<u32>
    ensures { result ≡ one_more_digit value byte }
{
    if byte.is_ascii_digit() {
        value.checked_mul(10)?.checked_add(u32::from(byte - b'0'))
    } else {
        None
    }
}
