//! The names of registers.

ghost use Rattle.std.specs.Prelude.{◌≡◌, ◌<◌, ◌≤◌, [], length, map, slice_index_or};
ghost use Rattle.fk_asm.specs.Listing.{register};
ghost use Rattle.fk_asm.specs.View.{text};
ghost use Rattle.fk_isa.specs.Fits.{IsRegister};

/// The names that the registers have in calls (RISC-V Unprivileged ISA, "RISC-V Assembly
/// Programmer's Handbook").
const NAMES: [&[u8]; 32] = [
    b"zero", b"ra", b"sp", b"gp", b"tp", b"t0", b"t1", b"t2", b"s0", b"s1", b"a0", b"a1", b"a2",
    b"a3", b"a4", b"a5", b"a6", b"a7", b"s2", b"s3", b"s4", b"s5", b"s6", b"s7", b"s8", b"s9",
    b"s10", b"s11", b"t3", b"t4", b"t5", b"t6",
];

/// The name of a register.
#[tactic(auto, unfolding(crate::specs::Listing::register))]
pub fn register(number: u8) -> &'static [u8]
    requires { IsRegister number }
    ensures text { result.now ≡ register number }
    ensures short { length result.now ≤ 4 }
{
    text_at(&NAMES, usize::from(number))
}

// The text at an index.
fn text_at(texts: &[&'static [u8]], index: usize) -> &'static [u8]
    requires { index < length texts.now }
    ensures { result.now ≡ slice_index_or (map text texts.now) index [] }
{
    texts[index]
}
