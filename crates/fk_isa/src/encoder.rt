//! Encodes instructions as words.

ghost use Rattle.std.specs.Prelude.{◌≡◌, ℕ, ◌<◌, ◌^◌, ◌*◌, ◌/◌, ◌%◌, ◌+◌};
ghost use Rattle.fk_isa.specs.Computation.{IsComputation};
ghost use Rattle.fk_isa.specs.Fits.{Fits, IsRegister, IsShort, IsOffset};
ghost use Rattle.fk_isa.specs.Row.{Row, RFormat, IFormat, SFormat, BFormat, UFormat, JFormat};
ghost use Rattle.fk_isa.specs.Row.{AFormat, FenceFormat};

use crate::fields::bits;
use crate::funct5::{
    AMOADD, AMOAND, AMOMAX, AMOMAXU, AMOMIN, AMOMINU, AMOOR, AMOSWAP, AMOXOR, LR, SC,
};
use crate::instruction::Instruction;
use crate::opcode::{AMO, AUIPC, BRANCH, JAL, JALR, LOAD, LUI, MISC_MEM, OP, OP_IMM, STORE};

/// The word of an instruction whose fields are in range.
pub fn encode(instruction: Instruction) -> u32
    requires fits { Fits instruction }
    ensures row { Row result instruction }
    ensures only { (word : ℕ) → word < 2 ^ 32 → Row word instruction → word ≡ result }
{
    placed(instruction)
}

// The fields of an instruction, each where its row has it.
fn placed(instruction: Instruction) -> u32
    requires { Fits instruction }
    ensures { Row result instruction }
{
    match instruction {
        Instruction::Jal(rd, offset) => j_format(JAL, rd, offset),
        Instruction::Jalr(rd, rs1, offset) => i_format(0, JALR, rd, rs1, offset),
        Instruction::Beq(rs1, rs2, offset) => b_format(0, BRANCH, rs1, rs2, offset),
        Instruction::Bne(rs1, rs2, offset) => b_format(1, BRANCH, rs1, rs2, offset),
        Instruction::Blt(rs1, rs2, offset) => b_format(4, BRANCH, rs1, rs2, offset),
        Instruction::Bge(rs1, rs2, offset) => b_format(5, BRANCH, rs1, rs2, offset),
        Instruction::Bltu(rs1, rs2, offset) => b_format(6, BRANCH, rs1, rs2, offset),
        Instruction::Bgeu(rs1, rs2, offset) => b_format(7, BRANCH, rs1, rs2, offset),
        Instruction::Lb(rd, rs1, offset) => i_format(0, LOAD, rd, rs1, offset),
        Instruction::Lh(rd, rs1, offset) => i_format(1, LOAD, rd, rs1, offset),
        Instruction::Lw(rd, rs1, offset) => i_format(2, LOAD, rd, rs1, offset),
        Instruction::Lbu(rd, rs1, offset) => i_format(4, LOAD, rd, rs1, offset),
        Instruction::Lhu(rd, rs1, offset) => i_format(5, LOAD, rd, rs1, offset),
        Instruction::Sb(rs1, rs2, offset) => s_format(0, STORE, rs1, rs2, offset),
        Instruction::Sh(rs1, rs2, offset) => s_format(1, STORE, rs1, rs2, offset),
        Instruction::Sw(rs1, rs2, offset) => s_format(2, STORE, rs1, rs2, offset),
        Instruction::Fence(high, low) => fence_format(high, low),
        Instruction::Ecall => 0x0000_0073,
        Instruction::Ebreak => 0x0010_0073,
        Instruction::LrW(rd, rs1, aq, rl) => amo_format(LR, aq, rl, rd, rs1, 0),
        Instruction::ScW(rd, rs1, rs2, aq, rl) => amo_format(SC, aq, rl, rd, rs1, rs2),
        Instruction::AmoSwapW(rd, rs1, rs2, aq, rl) => amo_format(AMOSWAP, aq, rl, rd, rs1, rs2),
        Instruction::AmoAddW(rd, rs1, rs2, aq, rl) => amo_format(AMOADD, aq, rl, rd, rs1, rs2),
        Instruction::AmoXorW(rd, rs1, rs2, aq, rl) => amo_format(AMOXOR, aq, rl, rd, rs1, rs2),
        Instruction::AmoAndW(rd, rs1, rs2, aq, rl) => amo_format(AMOAND, aq, rl, rd, rs1, rs2),
        Instruction::AmoOrW(rd, rs1, rs2, aq, rl) => amo_format(AMOOR, aq, rl, rd, rs1, rs2),
        Instruction::AmoMinW(rd, rs1, rs2, aq, rl) => amo_format(AMOMIN, aq, rl, rd, rs1, rs2),
        Instruction::AmoMaxW(rd, rs1, rs2, aq, rl) => amo_format(AMOMAX, aq, rl, rd, rs1, rs2),
        Instruction::AmoMinuW(rd, rs1, rs2, aq, rl) => amo_format(AMOMINU, aq, rl, rd, rs1, rs2),
        Instruction::AmoMaxuW(rd, rs1, rs2, aq, rl) => amo_format(AMOMAXU, aq, rl, rd, rs1, rs2),
        _ => placed_computation(instruction),
    }
}

// The fields of an instruction that computes, each where its row has it.
fn placed_computation(instruction: Instruction) -> u32
    requires fits { Fits instruction }
    requires computation { IsComputation instruction }
    ensures { Row result instruction }
{
    match instruction {
        Instruction::Lui(rd, upper) => u_format(LUI, rd, upper),
        Instruction::Auipc(rd, upper) => u_format(AUIPC, rd, upper),
        Instruction::Addi(rd, rs1, immediate) => i_format(0, OP_IMM, rd, rs1, immediate),
        Instruction::Slti(rd, rs1, immediate) => i_format(2, OP_IMM, rd, rs1, immediate),
        Instruction::Sltiu(rd, rs1, immediate) => i_format(3, OP_IMM, rd, rs1, immediate),
        Instruction::Xori(rd, rs1, immediate) => i_format(4, OP_IMM, rd, rs1, immediate),
        Instruction::Ori(rd, rs1, immediate) => i_format(6, OP_IMM, rd, rs1, immediate),
        Instruction::Andi(rd, rs1, immediate) => i_format(7, OP_IMM, rd, rs1, immediate),
        Instruction::Slli(rd, rs1, distance) => r_format(0, 1, OP_IMM, rd, rs1, distance),
        Instruction::Srli(rd, rs1, distance) => r_format(0, 5, OP_IMM, rd, rs1, distance),
        Instruction::Srai(rd, rs1, distance) => r_format(0x20, 5, OP_IMM, rd, rs1, distance),
        Instruction::Add(rd, rs1, rs2) => r_format(0, 0, OP, rd, rs1, rs2),
        Instruction::Sub(rd, rs1, rs2) => r_format(0x20, 0, OP, rd, rs1, rs2),
        Instruction::Sll(rd, rs1, rs2) => r_format(0, 1, OP, rd, rs1, rs2),
        Instruction::Slt(rd, rs1, rs2) => r_format(0, 2, OP, rd, rs1, rs2),
        Instruction::Sltu(rd, rs1, rs2) => r_format(0, 3, OP, rd, rs1, rs2),
        Instruction::Xor(rd, rs1, rs2) => r_format(0, 4, OP, rd, rs1, rs2),
        Instruction::Srl(rd, rs1, rs2) => r_format(0, 5, OP, rd, rs1, rs2),
        Instruction::Sra(rd, rs1, rs2) => r_format(0x20, 5, OP, rd, rs1, rs2),
        Instruction::Or(rd, rs1, rs2) => r_format(0, 6, OP, rd, rs1, rs2),
        Instruction::And(rd, rs1, rs2) => r_format(0, 7, OP, rd, rs1, rs2),
        Instruction::Mul(rd, rs1, rs2) => r_format(1, 0, OP, rd, rs1, rs2),
        Instruction::Mulh(rd, rs1, rs2) => r_format(1, 1, OP, rd, rs1, rs2),
        Instruction::Mulhsu(rd, rs1, rs2) => r_format(1, 2, OP, rd, rs1, rs2),
        Instruction::Mulhu(rd, rs1, rs2) => r_format(1, 3, OP, rd, rs1, rs2),
        Instruction::Div(rd, rs1, rs2) => r_format(1, 4, OP, rd, rs1, rs2),
        Instruction::Divu(rd, rs1, rs2) => r_format(1, 5, OP, rd, rs1, rs2),
        Instruction::Rem(rd, rs1, rs2) => r_format(1, 6, OP, rd, rs1, rs2),
        Instruction::Remu(rd, rs1, rs2) => r_format(1, 7, OP, rd, rs1, rs2),
        _ => unreachable!(),
    }
}

fn r_format(funct7: u32, funct3: u32, opcode: u32, rd: u8, rs1: u8, rs2: u8) -> u32
    requires funct7 { funct7 < 2 ^ 7 }
    requires funct3 { funct3 < 2 ^ 3 }
    requires opcode { opcode < 2 ^ 7 }
    requires rd { IsRegister rd }
    requires rs1 { IsRegister rs1 }
    requires rs2 { IsRegister rs2 }
    ensures { RFormat result funct7 funct3 opcode rd rs1 rs2 }
{
    (funct7 << 25)
        + (u32::from(rs2) << 20)
        + (u32::from(rs1) << 15)
        + (funct3 << 12)
        + (u32::from(rd) << 7)
        + opcode
}

fn i_format(funct3: u32, opcode: u32, rd: u8, rs1: u8, immediate: u32) -> u32
    requires funct3 { funct3 < 2 ^ 3 }
    requires opcode { opcode < 2 ^ 7 }
    requires rd { IsRegister rd }
    requires rs1 { IsRegister rs1 }
    requires immediate { IsShort 12 immediate }
    ensures { IFormat result funct3 opcode rd rs1 immediate }
{
    (bits(immediate, 0, 12) << 20)
        + (u32::from(rs1) << 15)
        + (funct3 << 12)
        + (u32::from(rd) << 7)
        + opcode
}

fn s_format(funct3: u32, opcode: u32, rs1: u8, rs2: u8, offset: u32) -> u32
    requires funct3 { funct3 < 2 ^ 3 }
    requires opcode { opcode < 2 ^ 7 }
    requires rs1 { IsRegister rs1 }
    requires rs2 { IsRegister rs2 }
    requires offset { IsShort 12 offset }
    ensures { SFormat result funct3 opcode rs1 rs2 offset }
{
    (bits(offset, 5, 7) << 25)
        + (u32::from(rs2) << 20)
        + (u32::from(rs1) << 15)
        + (funct3 << 12)
        + (bits(offset, 0, 5) << 7)
        + opcode
}

fn b_format(funct3: u32, opcode: u32, rs1: u8, rs2: u8, offset: u32) -> u32
    requires funct3 { funct3 < 2 ^ 3 }
    requires opcode { opcode < 2 ^ 7 }
    requires rs1 { IsRegister rs1 }
    requires rs2 { IsRegister rs2 }
    requires offset { IsOffset 13 offset }
    ensures { BFormat result funct3 opcode rs1 rs2 offset }
{
    (bits(offset, 12, 1) << 31)
        + (bits(offset, 5, 6) << 25)
        + (u32::from(rs2) << 20)
        + (u32::from(rs1) << 15)
        + (funct3 << 12)
        + (bits(offset, 1, 4) << 8)
        + (bits(offset, 11, 1) << 7)
        + opcode
}

fn u_format(opcode: u32, rd: u8, upper: u32) -> u32
    requires opcode { opcode < 2 ^ 7 }
    requires rd { IsRegister rd }
    requires upper { upper < 2 ^ 20 }
    ensures { UFormat result opcode rd upper }
{
    (upper << 12) + (u32::from(rd) << 7) + opcode
}

fn j_format(opcode: u32, rd: u8, offset: u32) -> u32
    requires opcode { opcode < 2 ^ 7 }
    requires rd { IsRegister rd }
    requires offset { IsOffset 21 offset }
    ensures { JFormat result opcode rd offset }
{
    (bits(offset, 20, 1) << 31)
        + (bits(offset, 1, 10) << 21)
        + (bits(offset, 11, 1) << 20)
        + (bits(offset, 12, 8) << 12)
        + (u32::from(rd) << 7)
        + opcode
}

// The R format with the bits aq and rl below funct5.
fn amo_format(funct5: u8, aq: bool, rl: bool, rd: u8, rs1: u8, rs2: u8) -> u32
    requires funct5 { funct5 < 2 ^ 5 }
    requires rd { IsRegister rd }
    requires rs1 { IsRegister rs1 }
    requires rs2 { IsRegister rs2 }
    ensures { AFormat result funct5 aq rl 2 0x2f rd rs1 rs2 }
{
    (u32::from(funct5) << 27)
        + (u32::from(aq) << 26)
        + (u32::from(rl) << 25)
        + (u32::from(rs2) << 20)
        + (u32::from(rs1) << 15)
        + (2 << 12)
        + (u32::from(rd) << 7)
        + AMO
}

fn fence_format(high: u32, low: u8) -> u32
    requires high { high < 2 ^ 17 }
    requires low { low < 2 ^ 5 }
    ensures { FenceFormat result 0 0x0f high low }
{
    (high << 15) + (u32::from(low) << 7) + MISC_MEM
}
