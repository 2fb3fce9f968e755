//! The bytes that a text denotes.

ghost use Rattle.std.specs.Prelude.{◌≡◌, IfOk};
ghost use Rattle.fk_meaning_forms.specs.Texts.{escaped as escaped_by, text_of};

use std::alloc::{AllocError, Global};

/// The bytes that the token of a text prints: those between its quotes, with each escape replaced
/// by the byte that it denotes.
pub fn text_bytes(alloc: Global, token: &[u8]) -> Result<Vec<u8>, AllocError>
    ensures { IfOk result (λ bytes. bytes.items ≡ text_of token.now) }
{
    let mut bytes = Vec::new(alloc);
    if token.is_empty() {
        return Ok(bytes);
    }
    let mut left = &token[1..];
    while left.len() > 1 {
        if left[0] == b'\\' {
            bytes.push(escaped(left[1]))?;
            left = &left[2..];
        } else {
            bytes.push(left[0])?;
            left = &left[1..];
        }
    }
    Ok(bytes)
}

// The byte that an escape denotes: a backslash and this byte.
fn escaped(byte: u8) -> u8
    ensures { result ≡ escaped_by byte }
{
    match byte {
        b'n' => b'\n',
        b't' => b'\t',
        b'0' => 0,
        _ => byte,
    }
}
