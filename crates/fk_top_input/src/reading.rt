//! Reading an input text.

ghost use Rattle.std.specs.Prelude.{◌≡◌, ◌≤◌, ◌⊎◌, ℕ, Ok, Err, IfOk, IfErr, OnOk, length};
ghost use Rattle.fk_num.specs.Limits.{most_text_bytes};
ghost use Rattle.fk_top_input.specs.Input.{input_of};

use crate::fault::{InputFault, out_of_memory};
use crate::number::number_within;
use crate::words::first_word;
use fk_num::MOST_TEXT_BYTES;
use std::alloc::Global;

/// The numbers of a text, of which there may be `limit`, modulo 2^32.
///
/// # Errors
///
/// `TooMany(0)` if the text has more than 1,048,576 bytes; else the fault of the first word at
/// fault, where word `limit` + 1 is `TooMany` whatever it is. `Memory` if there isn't enough
/// memory.
pub fn read_input(alloc: Global, bytes: &[u8], limit: u32) -> Result<Vec<u32>, InputFault>
    ensures numbers { IfOk result (λ numbers. input_of limit bytes.now ≡ Ok numbers.items) }
    ensures fault { IfErr result
        (λ fault. (fault ≡ InputFault.Memory) ⊎ (input_of limit bytes.now ≡ Err fault)) }
{
    check_length(bytes)?;
    let mut numbers = Vec::new(alloc);
    let mut place = 0;
    let mut rest = bytes;
    while let Some((word, behind)) = first_word(rest) {
        place += 1;
        let number = number_within(word, place, limit)?;
        numbers.push(number).map_err(out_of_memory)?;
        rest = behind;
    }
    Ok(numbers)
}

/// Tests that a text isn't too long, whatever its limit of words.
fn check_length(bytes: &[u8]) -> Result<(), InputFault>
    ensures short { OnOk result (length bytes.now ≤ most_text_bytes) }
    ensures long { IfErr result (λ fault. (limit : ℕ) → input_of limit bytes.now ≡ Err fault) }
{
    if bytes.len() > MOST_TEXT_BYTES {
        return Err(InputFault::TooMany(0));
    }
    Ok(())
}
