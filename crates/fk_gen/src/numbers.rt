//! The immediates of blocks, as words.

ghost use Rattle.std.specs.Prelude.{◌≡◌, ◌<◌, ◌≤◌, ◌^◌};
ghost use Rattle.fk_isa.specs.Fits.{IsShort};
ghost use Rattle.fk_gen.specs.Lines.{at_value, at_private, at_group_frame, high_part, low_part};

/// The offset of the k-th value of a call, counted from 1, from the word after its frame, in bytes.
pub fn at_value(k: u32) -> u32
    requires in_frame { k ≤ 64 }
    ensures exact { result ≡ at_value k }
    ensures short { IsShort 12 result }
{
    0u32.wrapping_sub(4 * k)
}

/// The offset of a private word from the start of its frame, or of a private variable of file scope
/// from local memory, in bytes.
pub fn at_private(i: u32) -> u32
    requires in_frame { i < 64 }
    ensures exact { result ≡ at_private i }
    ensures short { IsShort 12 result }
{
    4 * (7 + i)
}

/// The upper 20 bits of what is added to the address of a data word for that of the control word
/// with the same index.
pub const TO_CONTROL: u32 = 0x0_8000;
/// The upper 20 bits of what is added to the address of a control word for that of the data word
/// with the same index.
pub const TO_DATA: u32 = 0xf_8000;

/// The offset of the header's word for the address of a group frame, from the word after the frame,
/// in bytes.
pub fn at_group_frame() -> u32
    ensures exact { result ≡ at_group_frame }
    ensures short { IsShort 12 result }
{
    at_value(61)
}

/// The upper 20 bits of a number, as `lui` takes them where `addi` adds the lower 12 as a signed
/// number.
pub fn high_part(number: u32) -> u32
    ensures exact { result ≡ high_part number }
    ensures fits { result < 2 ^ 20 }
{
    ((u64::from(number) + 0x800) / 0x1000 % 0x10_0000) as u32
}

/// The lower 12 bits of a number, as a word that `addi` adds.
pub fn low_part(number: u32) -> u32
    ensures exact { result ≡ low_part number }
    ensures short { IsShort 12 result }
{
    let low = number % 0x1000;
    if low < 0x800 { low } else { low + 0xffff_f000 }
}
