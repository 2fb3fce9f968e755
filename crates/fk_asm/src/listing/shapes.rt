//! The shapes of the texts of instructions. A name has at most 9 bytes.

ghost use Rattle.std.specs.Prelude.{◌≡◌, ◌+◌, ◌<◌, ◌≤◌, ◌++◌, length};
ghost use Rattle.arrayvec.specs.ArrayVec.{array_vec_len};
ghost use Rattle.fk_asm.specs.Listing as spec;
ghost use Rattle.fk_isa.specs.Fits.{IsRegister};

use super::digits::append_hexadecimal;
use super::registers::register;
use arrayvec::ArrayVec;
use fk_num::{signed_text, unsigned_text};

/// Appends a piece, for which there is room.
pub fn append<const N: usize>(text: &mut ArrayVec<u8, N>, piece: &[u8])
    requires room { array_vec_len text.old + length piece.now ≤ N }
    ensures items { text.new.items ≡ text.old.items ++ piece.now }
    ensures len { array_vec_len text.new ≡ array_vec_len text.old + length piece.now }
{
    let _ = text.try_extend_from_slice(piece);
}

/// A text of one piece.
pub fn plain(piece: &[u8]) -> ArrayVec<u8, 48>
    requires room { length piece.now ≤ 14 }
    ensures text { result.items ≡ piece.now }
    ensures len { array_vec_len result ≡ length piece.now }
{
    let mut text = ArrayVec::new();
    append(&mut text, piece);
    text
}

// A name and the first register after it.
fn name_and_register(name: &[u8], first: u8) -> ArrayVec<u8, 48>
    requires name { length name.now ≤ 14 }
    requires first { IsRegister first }
    ensures text { result.items ≡ spec.name_and_register name.now first }
    ensures short { array_vec_len result ≤ length name.now + 7 }
{
    let mut text = plain(name);
    append(&mut text, b" ");
    append(&mut text, register(first));
    append(&mut text, b", ");
    text
}

fn append_immediate(text: &mut ArrayVec<u8, 48>, value: u32)
    requires room { array_vec_len text.old ≤ 37 }
    ensures items { text.new.items ≡ text.old.items ++ spec.immediate value }
    ensures short { array_vec_len text.new ≤ array_vec_len text.old + 11 }
{
    append(text, signed_text(value).as_slice());
}

fn append_in_parentheses(text: &mut ArrayVec<u8, 48>, base: u8)
    requires room { array_vec_len text.old ≤ 42 }
    requires base { IsRegister base }
    ensures items { text.new.items ≡ text.old.items ++ spec.in_parentheses base }
    ensures short { array_vec_len text.new ≤ array_vec_len text.old + 6 }
{
    append(text, b"(");
    append(text, register(base));
    append(text, b")");
}

/// The text of `lui` and `auipc`.
#[tactic(auto, using(crate::proofs::Hexadecimal::short_hexadecimal), unfolding(crate::specs::Listing::upper))]
pub fn upper(name: &[u8], rd: u8, imm: u32) -> ArrayVec<u8, 48>
    requires name { length name.now ≤ 9 }
    requires rd { IsRegister rd }
    ensures text { result.items ≡ spec.upper name.now rd imm }
    ensures short { array_vec_len result ≤ 47 }
{
    let mut text = name_and_register(name, rd);
    append(&mut text, b"0x");
    append_hexadecimal(&mut text, imm);
    text
}

/// The text of `jal`.
#[tactic(auto, unfolding(crate::specs::Listing::jump))]
pub fn jump(name: &[u8], rd: u8, imm: u32) -> ArrayVec<u8, 48>
    requires name { length name.now ≤ 9 }
    requires rd { IsRegister rd }
    ensures text { result.items ≡ spec.jump name.now rd imm }
    ensures short { array_vec_len result ≤ 47 }
{
    let mut text = name_and_register(name, rd);
    append_immediate(&mut text, imm);
    text
}

/// The text of a load, a store or `jalr`.
#[tactic(auto, unfolding(crate::specs::Listing::at_offset))]
pub fn at_offset(name: &[u8], first: u8, base: u8, imm: u32) -> ArrayVec<u8, 48>
    requires name { length name.now ≤ 9 }
    requires first { IsRegister first }
    requires base { IsRegister base }
    ensures text { result.items ≡ spec.at_offset name.now first base imm }
    ensures short { array_vec_len result ≤ 47 }
{
    let mut text = name_and_register(name, first);
    append_immediate(&mut text, imm);
    append_in_parentheses(&mut text, base);
    text
}

/// The text of an operation on a register and an immediate, or of a branch.
#[tactic(auto, unfolding(crate::specs::Listing::with_immediate))]
pub fn with_immediate(name: &[u8], first: u8, second: u8, imm: u32) -> ArrayVec<u8, 48>
    requires name { length name.now ≤ 9 }
    requires first { IsRegister first }
    requires second { IsRegister second }
    ensures text { result.items ≡ spec.with_immediate name.now first second imm }
    ensures short { array_vec_len result ≤ 47 }
{
    let mut text = name_and_register(name, first);
    append(&mut text, register(second));
    append(&mut text, b", ");
    append_immediate(&mut text, imm);
    text
}

/// The text of a shift by a distance.
#[tactic(auto, unfolding(crate::specs::Listing::with_distance))]
pub fn with_distance(name: &[u8], first: u8, second: u8, distance: u8) -> ArrayVec<u8, 48>
    requires name { length name.now ≤ 9 }
    requires first { IsRegister first }
    requires second { IsRegister second }
    ensures text { result.items ≡ spec.with_distance name.now first second distance }
    ensures short { array_vec_len result ≤ 47 }
{
    let mut text = name_and_register(name, first);
    append(&mut text, register(second));
    append(&mut text, b", ");
    append(&mut text, unsigned_text(u32::from(distance)).as_slice());
    text
}

/// The text of an operation on two registers.
#[tactic(auto, unfolding(crate::specs::Listing::three_registers))]
pub fn three_registers(name: &[u8], first: u8, second: u8, third: u8) -> ArrayVec<u8, 48>
    requires name { length name.now ≤ 9 }
    requires first { IsRegister first }
    requires second { IsRegister second }
    requires third { IsRegister third }
    ensures text { result.items ≡ spec.three_registers name.now first second third }
    ensures short { array_vec_len result ≤ 47 }
{
    let mut text = name_and_register(name, first);
    append(&mut text, register(second));
    append(&mut text, b", ");
    append(&mut text, register(third));
    text
}

// The suffix of a name for the bits aq and rl.
#[tactic(auto, unfolding(crate::specs::Listing::ordering))]
fn ordering(aq: bool, rl: bool) -> &'static [u8]
    ensures text { result.now ≡ spec.ordering aq rl }
    ensures short { length result.now ≤ 5 }
{
    match (aq, rl) {
        (false, false) => b"",
        (true, false) => b".aq",
        (false, true) => b".rl",
        (true, true) => b".aqrl",
    }
}

// The beginning of the text of an atomic instruction.
fn atomic_opening(name: &[u8], aq: bool, rl: bool, rd: u8) -> ArrayVec<u8, 48>
    requires name { length name.now ≤ 9 }
    requires rd { IsRegister rd }
    ensures text { result.items ≡ spec.name_and_register (name.now ++ spec.ordering aq rl) rd }
    ensures short { array_vec_len result ≤ 21 }
{
    let mut ordered = plain(name);
    append(&mut ordered, ordering(aq, rl));
    name_and_register(ordered.as_slice(), rd)
}

/// The text of `lr.w`.
#[tactic(auto, unfolding(crate::specs::Listing::reserving))]
pub fn reserving(name: &[u8], aq: bool, rl: bool, rd: u8, base: u8) -> ArrayVec<u8, 48>
    requires name { length name.now ≤ 9 }
    requires rd { IsRegister rd }
    requires base { IsRegister base }
    ensures text { result.items ≡ spec.reserving name.now aq rl rd base }
    ensures short { array_vec_len result ≤ 47 }
{
    let mut text = atomic_opening(name, aq, rl, rd);
    append_in_parentheses(&mut text, base);
    text
}

/// The text of an atomic instruction that takes a value.
#[tactic(auto, unfolding(crate::specs::Listing::atomic))]
pub fn atomic(name: &[u8], aq: bool, rl: bool, rd: u8, value: u8, base: u8) -> ArrayVec<u8, 48>
    requires name { length name.now ≤ 9 }
    requires rd { IsRegister rd }
    requires value { IsRegister value }
    requires base { IsRegister base }
    ensures text { result.items ≡ spec.atomic name.now aq rl rd value base }
    ensures short { array_vec_len result ≤ 47 }
{
    let mut text = atomic_opening(name, aq, rl, rd);
    append(&mut text, register(value));
    append(&mut text, b", ");
    append_in_parentheses(&mut text, base);
    text
}
