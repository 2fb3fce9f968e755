//! Jumps (RISC-V Unprivileged ISA, "RV32I Base Integer Instruction Set", Control
//! Transfer Instructions).

ghost use Rattle.std.specs.Prelude.{◌≡◌, ◌↔◌, IsTrue};
ghost use Rattle.fk_asm.specs.Jump.{IsJump, Reaches, distance, with_distance};

use fk_isa::Instruction;

/// The distance in bytes from one word to another, by their indices.
pub fn distance(from: u32, to: u32) -> i64
    ensures { result ≡ distance from to }
{
    4 * (i64::from(to) - i64::from(from))
}

/// Whether the format of a jump can hold a distance.
pub fn reaches(jump: Instruction, distance: i64) -> bool
    ensures { IsTrue result ↔ Reaches jump distance }
{
    match jump {
        Instruction::Jal(..) => (-0x10_0000..=0xf_fffe).contains(&distance),
        _ => (-4096..=4094).contains(&distance),
    }
}

/// The jump that goes this distance.
pub fn with_distance(jump: Instruction, distance: i64) -> Instruction
    requires { Reaches jump distance }
    ensures { result ≡ with_distance jump distance }
{
    let offset = (distance as i32).cast_unsigned();
    match jump {
        Instruction::Jal(rd, _) => Instruction::Jal(rd, offset),
        Instruction::Beq(rs1, rs2, _) => Instruction::Beq(rs1, rs2, offset),
        Instruction::Bne(rs1, rs2, _) => Instruction::Bne(rs1, rs2, offset),
        Instruction::Blt(rs1, rs2, _) => Instruction::Blt(rs1, rs2, offset),
        Instruction::Bge(rs1, rs2, _) => Instruction::Bge(rs1, rs2, offset),
        Instruction::Bltu(rs1, rs2, _) => Instruction::Bltu(rs1, rs2, offset),
        Instruction::Bgeu(rs1, rs2, _) => Instruction::Bgeu(rs1, rs2, offset),
        other => other,
    }
}
