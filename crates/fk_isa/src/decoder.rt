//! Decodes words into instructions.

ghost use Rattle.std.specs.Prelude.{◌≡◌, ◌↔◌, ◌<◌, ◌≤◌, ◌^◌, Some, IfSome};
ghost use Rattle.fk_isa.specs.Bits.{bits, is_set, i_immediate, s_immediate, b_immediate};
ghost use Rattle.fk_isa.specs.Bits.{j_immediate};
ghost use Rattle.fk_isa.specs.Find.{row, jump_row, branch_row, load_row, store_row, left_shift_row};
ghost use Rattle.fk_isa.specs.Find.{right_shift_row, immediate_row, base_row, other_row};
ghost use Rattle.fk_isa.specs.Find.{product_row, operation_row, fence_row, system_row};
ghost use Rattle.fk_isa.specs.Find.{reserved_row, word_row, atomic_row};
ghost use Rattle.fk_isa.specs.Fits.{Fits};
ghost use Rattle.fk_isa.specs.Row.{Row};
ghost use Rattle.fk_isa.specs.declared.instruction.Instruction.{Instruction};

use crate::fields::{bits, extended};
use crate::funct5::{
    AMOADD, AMOAND, AMOMAX, AMOMAXU, AMOMIN, AMOMINU, AMOOR, AMOSWAP, AMOXOR, LR, SC,
};
use crate::instruction::Instruction;
use crate::opcode::{
    AMO, AUIPC, BRANCH, JAL, JALR, LOAD, LUI, MISC_MEM, OP, OP_IMM, STORE, SYSTEM,
};

// Whether a bit of a word is set.
fn is_set(word: u32, low: u32) -> bool
    requires { low < 32 }
    ensures { result ≡ is_set word low }
{
    bits(word, low, 1) == 1
}

// The number of the register in five bits of a word.
fn register(word: u32, low: u32) -> u8
    requires { low < 32 }
    ensures value { result ≡ bits word low 5 }
    ensures fits { result < 32 }
{
    bits(word, low, 5) as u8
}

fn rd(word: u32) -> u8
    ensures { result ≡ bits word 7 5 }
{
    register(word, 7)
}

fn rs1(word: u32) -> u8
    ensures { result ≡ bits word 15 5 }
{
    register(word, 15)
}

fn rs2(word: u32) -> u8
    ensures { result ≡ bits word 20 5 }
{
    register(word, 20)
}

fn funct3(word: u32) -> u32
    ensures { result ≡ bits word 12 3 }
{
    bits(word, 12, 3)
}

fn funct5(word: u32) -> u8
    ensures { result ≡ bits word 27 5 }
{
    bits(word, 27, 5) as u8
}

fn funct7(word: u32) -> u32
    ensures { result ≡ bits word 25 7 }
{
    bits(word, 25, 7)
}

fn i_immediate(word: u32) -> u32
    ensures { result ≡ i_immediate word }
{
    extended(12, bits(word, 20, 12))
}

fn s_immediate(word: u32) -> u32
    ensures { result ≡ s_immediate word }
{
    extended(12, (bits(word, 25, 7) << 5) + bits(word, 7, 5))
}

fn b_immediate(word: u32) -> u32
    ensures { result ≡ b_immediate word }
{
    let high = (bits(word, 31, 1) << 12) + (bits(word, 7, 1) << 11);
    let low = (bits(word, 25, 6) << 5) + (bits(word, 8, 4) << 1);
    extended(13, high + low)
}

fn j_immediate(word: u32) -> u32
    ensures { result ≡ j_immediate word }
{
    let high = (bits(word, 31, 1) << 20) + (bits(word, 12, 8) << 12);
    let low = (bits(word, 20, 1) << 11) + (bits(word, 21, 10) << 1);
    extended(21, high + low)
}

/// The instruction of a word, or None where the table has no row for it.
pub fn decode(word: u32) -> Option<Instruction>
    ensures row { result ≡ row word }
    ensures table { (i : Instruction) → (result ≡ Some i) ↔ Row word i }
    ensures fits { IfSome result Fits }
{
    row_of(word)
}

#[tactic(auto, unfolding(crate::specs::Find::row))]
fn row_of(word: u32) -> Option<Instruction>
    ensures { result ≡ row word }
{
    match bits(word, 0, 7) {
        LUI => Some(Instruction::Lui(rd(word), bits(word, 12, 20))),
        AUIPC => Some(Instruction::Auipc(rd(word), bits(word, 12, 20))),
        JAL => Some(Instruction::Jal(rd(word), j_immediate(word))),
        JALR => jump(word),
        BRANCH => branch(word),
        LOAD => load(word),
        STORE => store(word),
        OP_IMM => immediate(word),
        OP => operation(word),
        MISC_MEM => fence(word),
        SYSTEM => system(word),
        AMO => atomic(word),
        _ => None,
    }
}

#[tactic(auto, unfolding(crate::specs::Find::jump_row))]
fn jump(word: u32) -> Option<Instruction>
    ensures { result ≡ jump_row word }
{
    match funct3(word) {
        0 => Some(Instruction::Jalr(rd(word), rs1(word), i_immediate(word))),
        _ => None,
    }
}

#[tactic(auto, unfolding(crate::specs::Find::branch_row))]
fn branch(word: u32) -> Option<Instruction>
    ensures { result ≡ branch_row word }
{
    match funct3(word) {
        0 => Some(Instruction::Beq(rs1(word), rs2(word), b_immediate(word))),
        1 => Some(Instruction::Bne(rs1(word), rs2(word), b_immediate(word))),
        4 => Some(Instruction::Blt(rs1(word), rs2(word), b_immediate(word))),
        5 => Some(Instruction::Bge(rs1(word), rs2(word), b_immediate(word))),
        6 => Some(Instruction::Bltu(rs1(word), rs2(word), b_immediate(word))),
        7 => Some(Instruction::Bgeu(rs1(word), rs2(word), b_immediate(word))),
        _ => None,
    }
}

#[tactic(auto, unfolding(crate::specs::Find::load_row))]
fn load(word: u32) -> Option<Instruction>
    ensures { result ≡ load_row word }
{
    match funct3(word) {
        0 => Some(Instruction::Lb(rd(word), rs1(word), i_immediate(word))),
        1 => Some(Instruction::Lh(rd(word), rs1(word), i_immediate(word))),
        2 => Some(Instruction::Lw(rd(word), rs1(word), i_immediate(word))),
        4 => Some(Instruction::Lbu(rd(word), rs1(word), i_immediate(word))),
        5 => Some(Instruction::Lhu(rd(word), rs1(word), i_immediate(word))),
        _ => None,
    }
}

#[tactic(auto, unfolding(crate::specs::Find::store_row))]
fn store(word: u32) -> Option<Instruction>
    ensures { result ≡ store_row word }
{
    match funct3(word) {
        0 => Some(Instruction::Sb(rs1(word), rs2(word), s_immediate(word))),
        1 => Some(Instruction::Sh(rs1(word), rs2(word), s_immediate(word))),
        2 => Some(Instruction::Sw(rs1(word), rs2(word), s_immediate(word))),
        _ => None,
    }
}

#[tactic(auto, unfolding(crate::specs::Find::immediate_row))]
fn immediate(word: u32) -> Option<Instruction>
    ensures { result ≡ immediate_row word }
{
    match funct3(word) {
        0 => Some(Instruction::Addi(rd(word), rs1(word), i_immediate(word))),
        1 => left_shift(word),
        2 => Some(Instruction::Slti(rd(word), rs1(word), i_immediate(word))),
        3 => Some(Instruction::Sltiu(rd(word), rs1(word), i_immediate(word))),
        4 => Some(Instruction::Xori(rd(word), rs1(word), i_immediate(word))),
        5 => right_shift(word),
        6 => Some(Instruction::Ori(rd(word), rs1(word), i_immediate(word))),
        7 => Some(Instruction::Andi(rd(word), rs1(word), i_immediate(word))),
        _ => None,
    }
}

#[tactic(auto, unfolding(crate::specs::Find::left_shift_row))]
fn left_shift(word: u32) -> Option<Instruction>
    ensures { result ≡ left_shift_row word }
{
    match funct7(word) {
        0 => Some(Instruction::Slli(rd(word), rs1(word), rs2(word))),
        _ => None,
    }
}

#[tactic(auto, unfolding(crate::specs::Find::right_shift_row))]
fn right_shift(word: u32) -> Option<Instruction>
    ensures { result ≡ right_shift_row word }
{
    match funct7(word) {
        0 => Some(Instruction::Srli(rd(word), rs1(word), rs2(word))),
        0x20 => Some(Instruction::Srai(rd(word), rs1(word), rs2(word))),
        _ => None,
    }
}

#[tactic(auto, unfolding(crate::specs::Find::operation_row))]
fn operation(word: u32) -> Option<Instruction>
    ensures { result ≡ operation_row word }
{
    match funct7(word) {
        0 => base_operation(word),
        0x20 => other_operation(word),
        1 => product(word),
        _ => None,
    }
}

#[tactic(auto, unfolding(crate::specs::Find::base_row))]
fn base_operation(word: u32) -> Option<Instruction>
    ensures { result ≡ base_row word }
{
    match funct3(word) {
        0 => Some(Instruction::Add(rd(word), rs1(word), rs2(word))),
        1 => Some(Instruction::Sll(rd(word), rs1(word), rs2(word))),
        2 => Some(Instruction::Slt(rd(word), rs1(word), rs2(word))),
        3 => Some(Instruction::Sltu(rd(word), rs1(word), rs2(word))),
        4 => Some(Instruction::Xor(rd(word), rs1(word), rs2(word))),
        5 => Some(Instruction::Srl(rd(word), rs1(word), rs2(word))),
        6 => Some(Instruction::Or(rd(word), rs1(word), rs2(word))),
        7 => Some(Instruction::And(rd(word), rs1(word), rs2(word))),
        _ => None,
    }
}

#[tactic(auto, unfolding(crate::specs::Find::other_row))]
fn other_operation(word: u32) -> Option<Instruction>
    ensures { result ≡ other_row word }
{
    match funct3(word) {
        0 => Some(Instruction::Sub(rd(word), rs1(word), rs2(word))),
        5 => Some(Instruction::Sra(rd(word), rs1(word), rs2(word))),
        _ => None,
    }
}

#[tactic(auto, unfolding(crate::specs::Find::product_row))]
fn product(word: u32) -> Option<Instruction>
    ensures { result ≡ product_row word }
{
    match funct3(word) {
        0 => Some(Instruction::Mul(rd(word), rs1(word), rs2(word))),
        1 => Some(Instruction::Mulh(rd(word), rs1(word), rs2(word))),
        2 => Some(Instruction::Mulhsu(rd(word), rs1(word), rs2(word))),
        3 => Some(Instruction::Mulhu(rd(word), rs1(word), rs2(word))),
        4 => Some(Instruction::Div(rd(word), rs1(word), rs2(word))),
        5 => Some(Instruction::Divu(rd(word), rs1(word), rs2(word))),
        6 => Some(Instruction::Rem(rd(word), rs1(word), rs2(word))),
        7 => Some(Instruction::Remu(rd(word), rs1(word), rs2(word))),
        _ => None,
    }
}

#[tactic(auto, unfolding(crate::specs::Find::fence_row))]
fn fence(word: u32) -> Option<Instruction>
    ensures { result ≡ fence_row word }
{
    match funct3(word) {
        0 => Some(Instruction::Fence(bits(word, 15, 17), rd(word))),
        _ => None,
    }
}

#[tactic(auto, unfolding(crate::specs::Find::system_row))]
fn system(word: u32) -> Option<Instruction>
    ensures { result ≡ system_row word }
{
    match word {
        0x0000_0073 => Some(Instruction::Ecall),
        0x0010_0073 => Some(Instruction::Ebreak),
        _ => None,
    }
}

#[tactic(auto, unfolding(crate::specs::Find::atomic_row))]
fn atomic(word: u32) -> Option<Instruction>
    ensures { result ≡ atomic_row word }
{
    match funct3(word) {
        2 => word_atomic(word),
        _ => None,
    }
}

#[tactic(auto, unfolding(crate::specs::Find::word_row))]
fn word_atomic(word: u32) -> Option<Instruction>
    ensures { result ≡ word_row word }
{
    let (rd, rs1, rs2) = (rd(word), rs1(word), rs2(word));
    let (aq, rl) = (is_set(word, 26), is_set(word, 25));
    match funct5(word) {
        LR => reserved(word),
        SC => Some(Instruction::ScW(rd, rs1, rs2, aq, rl)),
        AMOSWAP => Some(Instruction::AmoSwapW(rd, rs1, rs2, aq, rl)),
        AMOADD => Some(Instruction::AmoAddW(rd, rs1, rs2, aq, rl)),
        AMOXOR => Some(Instruction::AmoXorW(rd, rs1, rs2, aq, rl)),
        AMOAND => Some(Instruction::AmoAndW(rd, rs1, rs2, aq, rl)),
        AMOOR => Some(Instruction::AmoOrW(rd, rs1, rs2, aq, rl)),
        AMOMIN => Some(Instruction::AmoMinW(rd, rs1, rs2, aq, rl)),
        AMOMAX => Some(Instruction::AmoMaxW(rd, rs1, rs2, aq, rl)),
        AMOMINU => Some(Instruction::AmoMinuW(rd, rs1, rs2, aq, rl)),
        AMOMAXU => Some(Instruction::AmoMaxuW(rd, rs1, rs2, aq, rl)),
        _ => None,
    }
}

#[tactic(auto, unfolding(crate::specs::Find::reserved_row))]
fn reserved(word: u32) -> Option<Instruction>
    ensures { result ≡ reserved_row word }
{
    match rs2(word) {
        0 => Some(Instruction::LrW(rd(word), rs1(word), is_set(word, 26), is_set(word, 25))),
        _ => None,
    }
}
