//! How blocks take the values of the running call, and give it values. The value at place 1 is the
//! first, and the one at the place of the depth is the last.

ghost use Rattle.std.specs.Prelude.{◌≡◌, ◌≤◌};
ghost use Rattle.fk_isa.specs.Fits.{Fits, IsRegister};
ghost use Rattle.fk_gen.specs.Operands as values;

use crate::numbers::at_value;
use crate::registers::END;
use fk_isa::Instruction;

/// Takes the value at a place into a register.
pub fn operand(register: u8, place: u32) -> Instruction
    requires register { IsRegister register }
    requires place { place ≤ 64 }
    ensures exact { result ≡ values.operand register place }
    ensures fits { Fits result }
{
    Instruction::Lw(register, END, at_value(place))
}

/// Gives the value in a register to a place.
pub fn result(register: u8, place: u32) -> Instruction
    requires register { IsRegister register }
    requires place { place ≤ 64 }
    ensures exact { result ≡ values.result register place }
    ensures fits { Fits result }
{
    Instruction::Sw(END, register, at_value(place))
}
