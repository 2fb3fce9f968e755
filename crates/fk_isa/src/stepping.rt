//! One instruction of a hart.

ghost use Rattle.std.specs.Prelude.{◌≡◌, ℕ, ◌<◌, ◌^◌, ◌*◌, ◌/◌, ◌%◌, ◌+◌, ◌⊎◌};
ghost use Rattle.fk_num.specs.Op.{applied};
ghost use Rattle.fk_num.specs.Word.{word_sum, signed};
ghost use Rattle.fk_isa.specs.Bits.{extended};
ghost use Rattle.fk_isa.specs.Fits.{Fits};
ghost use Rattle.fk_isa.specs.Tells.{IsSize, IsAtomic};
ghost use Rattle.fk_isa.specs.Step.{After, atomic, hart_of, load, step, store};

use crate::bus::Bus;
use crate::effect::{EBREAK, ECALL, Effect};
use crate::fields::extended;
use crate::funct5::{
    AMOADD, AMOAND, AMOMAX, AMOMAXU, AMOMIN, AMOMINU, AMOOR, AMOSWAP, AMOXOR, LR, SC,
};
use crate::hart::Hart;
use crate::instruction::Instruction;
use fk_num::Op;

/// Runs one instruction of the hart with this number.
pub fn step<B: Bus>(instruction: Instruction, number: u32, hart: &mut Hart, bus: &mut B) -> Effect
    requires fits { Fits instruction }
    requires number { number < B.harts bus.old }
    requires ready { B.is_ready bus.old }
    ensures outcome { step B.tells number instruction (hart_of hart.old)
        (B.state bus.old) ≡ After result (hart_of hart.new) (B.state bus.new) }
    ensures keeps { B.keeps bus.old bus.new ⊎ (bus.new ≡ bus.old) }
{
    match instruction {
        Instruction::Lui(rd, imm) => hart.write(rd, imm << 12),
        Instruction::Auipc(rd, imm) => hart.write(rd, hart.pc.wrapping_add(imm << 12)),
        Instruction::Jal(rd, imm) => hart.jump(rd, hart.pc.wrapping_add(imm)),
        Instruction::Jalr(rd, rs1, imm) => hart.jump(rd, hart.sum(rs1, imm) / 2 * 2),
        Instruction::Beq(rs1, rs2, imm) => hart.branch(hart.word(rs1) == hart.word(rs2), imm),
        Instruction::Bne(rs1, rs2, imm) => hart.branch(hart.word(rs1) != hart.word(rs2), imm),
        Instruction::Blt(rs1, rs2, imm) => hart.branch(hart.signed(rs1) < hart.signed(rs2), imm),
        Instruction::Bge(rs1, rs2, imm) => hart.branch(hart.signed(rs1) >= hart.signed(rs2), imm),
        Instruction::Bltu(rs1, rs2, imm) => hart.branch(hart.word(rs1) < hart.word(rs2), imm),
        Instruction::Bgeu(rs1, rs2, imm) => hart.branch(hart.word(rs1) >= hart.word(rs2), imm),
        Instruction::Lb(rd, rs1, imm) => load_signed(number, hart, bus, rd, rs1, imm, 1),
        Instruction::Lh(rd, rs1, imm) => load_signed(number, hart, bus, rd, rs1, imm, 2),
        Instruction::Lw(rd, rs1, imm) => load(number, hart, bus, rd, rs1, imm, 4),
        Instruction::Lbu(rd, rs1, imm) => load(number, hart, bus, rd, rs1, imm, 1),
        Instruction::Lhu(rd, rs1, imm) => load(number, hart, bus, rd, rs1, imm, 2),
        Instruction::Sb(rs1, rs2, imm) => store(number, hart, bus, rs1, rs2, imm, 1),
        Instruction::Sh(rs1, rs2, imm) => store(number, hart, bus, rs1, rs2, imm, 2),
        Instruction::Sw(rs1, rs2, imm) => store(number, hart, bus, rs1, rs2, imm, 4),
        Instruction::Addi(rd, rs1, imm) => hart.operate(Op::Add, rd, rs1, imm),
        Instruction::Slti(rd, rs1, imm) => hart.operate(Op::LtS, rd, rs1, imm),
        Instruction::Sltiu(rd, rs1, imm) => hart.operate(Op::LtU, rd, rs1, imm),
        Instruction::Xori(rd, rs1, imm) => hart.operate(Op::Xor, rd, rs1, imm),
        Instruction::Ori(rd, rs1, imm) => hart.operate(Op::Or, rd, rs1, imm),
        Instruction::Andi(rd, rs1, imm) => hart.operate(Op::And, rd, rs1, imm),
        Instruction::Slli(rd, rs1, distance) => hart.operate(Op::Shl, rd, rs1, distance.into()),
        Instruction::Srli(rd, rs1, distance) => hart.operate(Op::ShrU, rd, rs1, distance.into()),
        Instruction::Srai(rd, rs1, distance) => hart.operate(Op::ShrS, rd, rs1, distance.into()),
        Instruction::Add(rd, rs1, rs2) => hart.operate_two(Op::Add, rd, rs1, rs2),
        Instruction::Sub(rd, rs1, rs2) => hart.operate_two(Op::Sub, rd, rs1, rs2),
        Instruction::Sll(rd, rs1, rs2) => hart.operate_two(Op::Shl, rd, rs1, rs2),
        Instruction::Slt(rd, rs1, rs2) => hart.operate_two(Op::LtS, rd, rs1, rs2),
        Instruction::Sltu(rd, rs1, rs2) => hart.operate_two(Op::LtU, rd, rs1, rs2),
        Instruction::Xor(rd, rs1, rs2) => hart.operate_two(Op::Xor, rd, rs1, rs2),
        Instruction::Srl(rd, rs1, rs2) => hart.operate_two(Op::ShrU, rd, rs1, rs2),
        Instruction::Sra(rd, rs1, rs2) => hart.operate_two(Op::ShrS, rd, rs1, rs2),
        Instruction::Or(rd, rs1, rs2) => hart.operate_two(Op::Or, rd, rs1, rs2),
        Instruction::And(rd, rs1, rs2) => hart.operate_two(Op::And, rd, rs1, rs2),
        Instruction::Mul(rd, rs1, rs2) => hart.operate_two(Op::Mul, rd, rs1, rs2),
        Instruction::Mulh(rd, rs1, rs2) => hart.operate_two(Op::MulHS, rd, rs1, rs2),
        Instruction::Mulhsu(rd, rs1, rs2) => hart.operate_two(Op::MulHSU, rd, rs1, rs2),
        Instruction::Mulhu(rd, rs1, rs2) => hart.operate_two(Op::MulHU, rd, rs1, rs2),
        Instruction::Div(rd, rs1, rs2) => hart.operate_two(Op::DivS, rd, rs1, rs2),
        Instruction::Divu(rd, rs1, rs2) => hart.operate_two(Op::DivU, rd, rs1, rs2),
        Instruction::Rem(rd, rs1, rs2) => hart.operate_two(Op::RemS, rd, rs1, rs2),
        Instruction::Remu(rd, rs1, rs2) => hart.operate_two(Op::RemU, rd, rs1, rs2),
        Instruction::Fence(..) => hart.go_on(),
        Instruction::Ecall => Effect::Trap(ECALL),
        Instruction::Ebreak => Effect::Trap(EBREAK),
        Instruction::LrW(rd, rs1, ..) => atomic(number, hart, bus, LR, rd, rs1, 0),
        Instruction::ScW(rd, rs1, rs2, ..) => atomic(number, hart, bus, SC, rd, rs1, rs2),
        Instruction::AmoSwapW(rd, rs1, rs2, ..) => atomic(number, hart, bus, AMOSWAP, rd, rs1, rs2),
        Instruction::AmoAddW(rd, rs1, rs2, ..) => atomic(number, hart, bus, AMOADD, rd, rs1, rs2),
        Instruction::AmoXorW(rd, rs1, rs2, ..) => atomic(number, hart, bus, AMOXOR, rd, rs1, rs2),
        Instruction::AmoAndW(rd, rs1, rs2, ..) => atomic(number, hart, bus, AMOAND, rd, rs1, rs2),
        Instruction::AmoOrW(rd, rs1, rs2, ..) => atomic(number, hart, bus, AMOOR, rd, rs1, rs2),
        Instruction::AmoMinW(rd, rs1, rs2, ..) => atomic(number, hart, bus, AMOMIN, rd, rs1, rs2),
        Instruction::AmoMaxW(rd, rs1, rs2, ..) => atomic(number, hart, bus, AMOMAX, rd, rs1, rs2),
        Instruction::AmoMinuW(rd, rs1, rs2, ..) => atomic(number, hart, bus, AMOMINU, rd, rs1, rs2),
        Instruction::AmoMaxuW(rd, rs1, rs2, ..) => atomic(number, hart, bus, AMOMAXU, rd, rs1, rs2),
    }
}

// A load of `size` bytes, without sign.
#[inline(always)]
fn load<B: Bus>(
    number: u32,
    hart: &mut Hart,
    bus: &mut B,
    rd: u8,
    rs1: u8,
    offset: u32,
    size: u8,
) -> Effect
    requires number { number < B.harts bus.old }
    requires ready { B.is_ready bus.old }
    requires rd { rd < 32 }
    requires rs1 { rs1 < 32 }
    requires size { IsSize size }
    ensures outcome { load B.tells number (hart_of hart.old) (B.state bus.old) rd rs1 offset size
        (λ v. v) ≡ After result (hart_of hart.new) (B.state bus.new) }
    ensures keeps { B.keeps bus.old bus.new }
{
    match bus.load(number, hart.sum(rs1, offset), size) {
        Ok(value) => hart.write(rd, value),
        Err(trap) => Effect::Trap(trap),
    }
}

// A load of one or two bytes, with their sign.
#[inline(always)]
fn load_signed<B: Bus>(
    number: u32,
    hart: &mut Hart,
    bus: &mut B,
    rd: u8,
    rs1: u8,
    offset: u32,
    size: u8,
) -> Effect
    requires number { number < B.harts bus.old }
    requires ready { B.is_ready bus.old }
    requires rd { rd < 32 }
    requires rs1 { rs1 < 32 }
    requires size { (size ≡ 1) ⊎ (size ≡ 2) }
    ensures outcome { load B.tells number (hart_of hart.old) (B.state bus.old) rd rs1 offset size
        (extended (8 * size)) ≡ After result (hart_of hart.new) (B.state bus.new) }
    ensures keeps { B.keeps bus.old bus.new }
{
    match bus.load(number, hart.sum(rs1, offset), size) {
        Ok(value) => hart.write(rd, extended(8 * u32::from(size), value)),
        Err(trap) => Effect::Trap(trap),
    }
}

// A store of the low `size` bytes of rs2.
#[inline(always)]
fn store<B: Bus>(
    number: u32,
    hart: &mut Hart,
    bus: &mut B,
    rs1: u8,
    rs2: u8,
    offset: u32,
    size: u8,
) -> Effect
    requires number { number < B.harts bus.old }
    requires ready { B.is_ready bus.old }
    requires rs1 { rs1 < 32 }
    requires rs2 { rs2 < 32 }
    requires size { IsSize size }
    ensures outcome { store B.tells number (hart_of hart.old) (B.state bus.old) rs1 rs2 offset size
        ≡ After result (hart_of hart.new) (B.state bus.new) }
    ensures keeps { B.keeps bus.old bus.new }
{
    match bus.store(number, hart.sum(rs1, offset), size, hart.word(rs2)) {
        Ok(Effect::Next) => hart.go_on(),
        Ok(Effect::Ended) => hart.end(),
        Ok(effect) => effect,
        Err(trap) => Effect::Trap(trap),
    }
}

// An atomic instruction, by its bits 31 to 27.
#[inline(always)]
fn atomic<B: Bus>(
    number: u32,
    hart: &mut Hart,
    bus: &mut B,
    what: u8,
    rd: u8,
    rs1: u8,
    rs2: u8,
) -> Effect
    requires number { number < B.harts bus.old }
    requires ready { B.is_ready bus.old }
    requires what { IsAtomic what }
    requires rd { rd < 32 }
    requires rs1 { rs1 < 32 }
    requires rs2 { rs2 < 32 }
    ensures outcome { atomic B.tells number (hart_of hart.old) (B.state bus.old) what rd rs1 rs2
        ≡ After result (hart_of hart.new) (B.state bus.new) }
    ensures keeps { B.keeps bus.old bus.new }
{
    match bus.atomic(number, hart.word(rs1), what, hart.word(rs2)) {
        Ok(value) => hart.write(rd, value),
        Err(trap) => Effect::Trap(trap),
    }
}
