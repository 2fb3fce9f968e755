//! Classes of bytes.

ghost use Rattle.std.specs.Prelude.{◌≡◌, ◌<◌, slice_index};
ghost use Rattle.std.specs.List.{list_all};
ghost use Rattle.fk_lex.specs.Bytes;

/// Whether a byte is a space, a tab, a carriage return or a newline.
pub fn is_blank(byte: u8) -> bool
    ensures { result ≡ Bytes.is_blank byte }
{
    matches!(byte, b' ' | b'\t' | b'\r' | b'\n')
}

/// Whether all bytes of a text are blanks; the text may be empty.
pub fn are_blanks(text: &[u8]) -> bool
    ensures { result ≡ list_all Bytes.is_blank text.now }
{
    text.iter().all(|byte| is_blank(*byte))
}

/// Whether a byte is a letter or `_`.
pub fn is_letter(byte: u8) -> bool
    ensures { result ≡ Bytes.is_letter byte }
{
    byte.is_ascii_alphabetic() || byte == b'_'
}

/// Whether a byte is a decimal digit.
pub fn is_digit(byte: u8) -> bool
    ensures { result ≡ Bytes.is_digit byte }
{
    byte.is_ascii_digit()
}

/// Whether each byte is a letter, a digit or `_`.
const WORD_BYTES: [bool; 256] = [
    false, false, false, false, false, false, false, false, false, false, false, false, false,
    false, false, false, false, false, false, false, false, false, false, false, false, false,
    false, false, false, false, false, false, false, false, false, false, false, false, false,
    false, false, false, false, false, false, false, false, false, true, true, true, true, true,
    true, true, true, true, true, false, false, false, false, false, false, false, true, true,
    true, true, true, true, true, true, true, true, true, true, true, true, true, true, true, true,
    true, true, true, true, true, true, true, true, false, false, false, false, true, false, true,
    true, true, true, true, true, true, true, true, true, true, true, true, true, true, true, true,
    true, true, true, true, true, true, true, true, true, false, false, false, false, false, false,
    false, false, false, false, false, false, false, false, false, false, false, false, false,
    false, false, false, false, false, false, false, false, false, false, false, false, false,
    false, false, false, false, false, false, false, false, false, false, false, false, false,
    false, false, false, false, false, false, false, false, false, false, false, false, false,
    false, false, false, false, false, false, false, false, false, false, false, false, false,
    false, false, false, false, false, false, false, false, false, false, false, false, false,
    false, false, false, false, false, false, false, false, false, false, false, false, false,
    false, false, false, false, false, false, false, false, false, false, false, false, false,
    false, false, false, false, false, false, false, false, false, false, false, false, false,
    false, false, false, false, false, false, false, false, false, false,
];

/// Whether a byte is a letter, a digit or `_`.
pub fn is_word_byte(byte: u8) -> bool
    ensures { result ≡ Bytes.is_word_byte byte }
{
    WORD_BYTES[byte as usize]
}

/// The value of a hexadecimal digit; 16 for every other byte.
pub fn digit_value(byte: u8) -> u32
    ensures { result ≡ Bytes.digit_value byte }
{
    match byte {
        b'0'..=b'9' => (byte - b'0') as u32,
        b'a'..=b'f' => (byte - b'a') as u32 + 10,
        b'A'..=b'F' => (byte - b'A') as u32 + 10,
        _ => 16,
    }
}

/// Whether a byte is the suffix `u` or `U`, which makes a number `unsigned`.
pub fn is_suffix(byte: u8) -> bool
    ensures { result ≡ Bytes.is_suffix byte }
{
    byte == b'u' || byte == b'U'
}

/// Whether a byte is `x` or `X`, which makes the digits after a 0 hexadecimal.
pub fn is_x(byte: u8) -> bool
    ensures { result ≡ Bytes.is_x byte }
{
    byte == b'x' || byte == b'X'
}

/// Whether a byte represents itself between two quotes of this kind.
pub fn is_plain(quote: u8, byte: u8) -> bool
    ensures { result ≡ Bytes.is_plain quote byte }
{
    byte >= 32 && byte <= 126 && byte != quote && byte != b'\\'
}

/// The byte that an escape denotes: a backslash and this byte. `None` if there is no such escape.
pub fn escape_value(byte: u8) -> Option<u8>
    ensures { result ≡ Bytes.escape_value byte }
{
    match byte {
        b'n' => Some(b'\n'),
        b't' => Some(b'\t'),
        b'0' => Some(0),
        b'\\' => Some(b'\\'),
        b'\'' => Some(b'\''),
        b'"' => Some(b'"'),
        _ => None,
    }
}

/// The byte of a text at an index; 0 past its end.
pub fn byte_at(text: &[u8], at: usize) -> u8
    ensures { result ≡ slice_index text.now at }
{
    if at < text.len() { text[at] } else { 0 }
}
