//! The texts of instruction words, as assemblers write them.

ghost use Rattle.std.specs.Prelude.{◌≡◌, ◌+◌, ◌<◌, ◌≤◌, ◌^◌, ◌++◌, length};
ghost use Rattle.arrayvec.specs.ArrayVec.{array_vec_len};
ghost use Rattle.fk_asm.specs.Listing.{line_of, listed, text_of, unknown};
ghost use Rattle.fk_isa.specs.Computation.{IsComputation};
ghost use Rattle.fk_isa.specs.Fits.{Fits};
ghost use Rattle.fk_isa.specs.Row.{Row};
ghost use Rattle.fk_isa.specs.declared.instruction.Instruction.{Instruction};

mod digits;
mod registers;
mod shapes;

use arrayvec::ArrayVec;
pub use digits::eight_digits;
use fk_isa::{Instruction, decode};
use shapes::{
    append, at_offset, atomic, jump, plain, reserving, three_registers, upper, with_distance,
    with_immediate,
};

/// The text of one instruction word, such as `sw zero, 12(t0)`, at most 47 bytes (RISC-V
/// Unprivileged ISA, "RISC-V Assembly Programmer's Handbook").
///
/// Registers have the names that they have in calls. Immediates are signed decimals, and the
/// offsets of jumps and branches are such immediates. The upper 20 bits of `lui` and `auipc` are
/// hexadecimal, without leading zeros. The bits aq and rl add `.aq`, `.rl` or `.aqrl` to a name.
/// `fence` has no operands. A word with no row in the table of instructions is `.word 0x` and eight
/// digits. It takes no memory.
#[tactic(auto, unfolding(crate::specs::Listing::listed))]
pub fn listing(word: u32) -> ArrayVec<u8, 48>
    ensures text { result.items ≡ listed word }
    ensures row { (i : Instruction) → Row word i → result.items ≡ text_of i }
    ensures no_row { ((i : Instruction) → ¬ Row word i) → result.items ≡ unknown word }
    ensures short { array_vec_len result ≤ 47 }
{
    match decode(word) {
        Some(instruction) => text_of(instruction),
        None => unknown(word),
    }
}

/// A line of a listing: the address in eight hexadecimal digits, `: `, the word in eight, two
/// blanks, the text of the word, and a newline. It takes no memory.
#[tactic(auto, unfolding(crate::specs::Listing::line_of))]
pub fn listing_line(address: u32, word: u32) -> ArrayVec<u8, 68>
    ensures { result.items ≡ line_of address word }
{
    let mut line = ArrayVec::new();
    append(&mut line, &eight_digits(address));
    append(&mut line, b": ");
    append(&mut line, &eight_digits(word));
    append(&mut line, b"  ");
    append(&mut line, listing(word).as_slice());
    append(&mut line, b"\n");
    line
}

// The text of a word that has no row in the table of instructions.
#[tactic(auto, unfolding(crate::specs::Listing::unknown))]
fn unknown(word: u32) -> ArrayVec<u8, 48>
    ensures text { result.items ≡ unknown word }
    ensures short { array_vec_len result ≤ 47 }
{
    let mut text = plain(b".word 0x");
    append(&mut text, &eight_digits(word));
    text
}

// The text of an instruction whose fields are in range.
fn text_of(instruction: Instruction) -> ArrayVec<u8, 48>
    requires { Fits instruction }
    ensures text { result.items ≡ text_of instruction }
    ensures short { array_vec_len result ≤ 47 }
{
    match instruction {
        Instruction::Jal(rd, imm) => jump(b"jal", rd, imm),
        Instruction::Jalr(rd, rs1, imm) => at_offset(b"jalr", rd, rs1, imm),
        Instruction::Beq(rs1, rs2, imm) => with_immediate(b"beq", rs1, rs2, imm),
        Instruction::Bne(rs1, rs2, imm) => with_immediate(b"bne", rs1, rs2, imm),
        Instruction::Blt(rs1, rs2, imm) => with_immediate(b"blt", rs1, rs2, imm),
        Instruction::Bge(rs1, rs2, imm) => with_immediate(b"bge", rs1, rs2, imm),
        Instruction::Bltu(rs1, rs2, imm) => with_immediate(b"bltu", rs1, rs2, imm),
        Instruction::Bgeu(rs1, rs2, imm) => with_immediate(b"bgeu", rs1, rs2, imm),
        Instruction::Lb(rd, rs1, imm) => at_offset(b"lb", rd, rs1, imm),
        Instruction::Lh(rd, rs1, imm) => at_offset(b"lh", rd, rs1, imm),
        Instruction::Lw(rd, rs1, imm) => at_offset(b"lw", rd, rs1, imm),
        Instruction::Lbu(rd, rs1, imm) => at_offset(b"lbu", rd, rs1, imm),
        Instruction::Lhu(rd, rs1, imm) => at_offset(b"lhu", rd, rs1, imm),
        Instruction::Sb(rs1, rs2, imm) => at_offset(b"sb", rs2, rs1, imm),
        Instruction::Sh(rs1, rs2, imm) => at_offset(b"sh", rs2, rs1, imm),
        Instruction::Sw(rs1, rs2, imm) => at_offset(b"sw", rs2, rs1, imm),
        Instruction::Fence(..) => plain(b"fence"),
        Instruction::Ecall => plain(b"ecall"),
        Instruction::Ebreak => plain(b"ebreak"),
        Instruction::LrW(rd, rs1, aq, rl) => reserving(b"lr.w", aq, rl, rd, rs1),
        Instruction::ScW(rd, rs1, rs2, aq, rl) => atomic(b"sc.w", aq, rl, rd, rs2, rs1),
        Instruction::AmoSwapW(rd, rs1, rs2, aq, rl) => atomic(b"amoswap.w", aq, rl, rd, rs2, rs1),
        Instruction::AmoAddW(rd, rs1, rs2, aq, rl) => atomic(b"amoadd.w", aq, rl, rd, rs2, rs1),
        Instruction::AmoXorW(rd, rs1, rs2, aq, rl) => atomic(b"amoxor.w", aq, rl, rd, rs2, rs1),
        Instruction::AmoAndW(rd, rs1, rs2, aq, rl) => atomic(b"amoand.w", aq, rl, rd, rs2, rs1),
        Instruction::AmoOrW(rd, rs1, rs2, aq, rl) => atomic(b"amoor.w", aq, rl, rd, rs2, rs1),
        Instruction::AmoMinW(rd, rs1, rs2, aq, rl) => atomic(b"amomin.w", aq, rl, rd, rs2, rs1),
        Instruction::AmoMaxW(rd, rs1, rs2, aq, rl) => atomic(b"amomax.w", aq, rl, rd, rs2, rs1),
        Instruction::AmoMinuW(rd, rs1, rs2, aq, rl) => atomic(b"amominu.w", aq, rl, rd, rs2, rs1),
        Instruction::AmoMaxuW(rd, rs1, rs2, aq, rl) => atomic(b"amomaxu.w", aq, rl, rd, rs2, rs1),
        _ => text_of_computation(instruction),
    }
}

// The text of an instruction that computes.
fn text_of_computation(instruction: Instruction) -> ArrayVec<u8, 48>
    requires fits { Fits instruction }
    requires computation { IsComputation instruction }
    ensures text { result.items ≡ text_of instruction }
    ensures short { array_vec_len result ≤ 47 }
{
    match instruction {
        Instruction::Lui(rd, imm) => upper(b"lui", rd, imm),
        Instruction::Auipc(rd, imm) => upper(b"auipc", rd, imm),
        Instruction::Addi(rd, rs1, imm) => with_immediate(b"addi", rd, rs1, imm),
        Instruction::Slti(rd, rs1, imm) => with_immediate(b"slti", rd, rs1, imm),
        Instruction::Sltiu(rd, rs1, imm) => with_immediate(b"sltiu", rd, rs1, imm),
        Instruction::Xori(rd, rs1, imm) => with_immediate(b"xori", rd, rs1, imm),
        Instruction::Ori(rd, rs1, imm) => with_immediate(b"ori", rd, rs1, imm),
        Instruction::Andi(rd, rs1, imm) => with_immediate(b"andi", rd, rs1, imm),
        Instruction::Slli(rd, rs1, distance) => with_distance(b"slli", rd, rs1, distance),
        Instruction::Srli(rd, rs1, distance) => with_distance(b"srli", rd, rs1, distance),
        Instruction::Srai(rd, rs1, distance) => with_distance(b"srai", rd, rs1, distance),
        Instruction::Add(rd, rs1, rs2) => three_registers(b"add", rd, rs1, rs2),
        Instruction::Sub(rd, rs1, rs2) => three_registers(b"sub", rd, rs1, rs2),
        Instruction::Sll(rd, rs1, rs2) => three_registers(b"sll", rd, rs1, rs2),
        Instruction::Slt(rd, rs1, rs2) => three_registers(b"slt", rd, rs1, rs2),
        Instruction::Sltu(rd, rs1, rs2) => three_registers(b"sltu", rd, rs1, rs2),
        Instruction::Xor(rd, rs1, rs2) => three_registers(b"xor", rd, rs1, rs2),
        Instruction::Srl(rd, rs1, rs2) => three_registers(b"srl", rd, rs1, rs2),
        Instruction::Sra(rd, rs1, rs2) => three_registers(b"sra", rd, rs1, rs2),
        Instruction::Or(rd, rs1, rs2) => three_registers(b"or", rd, rs1, rs2),
        Instruction::And(rd, rs1, rs2) => three_registers(b"and", rd, rs1, rs2),
        Instruction::Mul(rd, rs1, rs2) => three_registers(b"mul", rd, rs1, rs2),
        Instruction::Mulh(rd, rs1, rs2) => three_registers(b"mulh", rd, rs1, rs2),
        Instruction::Mulhsu(rd, rs1, rs2) => three_registers(b"mulhsu", rd, rs1, rs2),
        Instruction::Mulhu(rd, rs1, rs2) => three_registers(b"mulhu", rd, rs1, rs2),
        Instruction::Div(rd, rs1, rs2) => three_registers(b"div", rd, rs1, rs2),
        Instruction::Divu(rd, rs1, rs2) => three_registers(b"divu", rd, rs1, rs2),
        Instruction::Rem(rd, rs1, rs2) => three_registers(b"rem", rd, rs1, rs2),
        Instruction::Remu(rd, rs1, rs2) => three_registers(b"remu", rd, rs1, rs2),
        _ => unreachable!(),
    }
}
