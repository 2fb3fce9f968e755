//! The blocks of accesses.

ghost use Rattle.std.specs.Prelude.{◌≡◌, ◌+◌, ◌^◌, ◌<◌, ◌≤◌, true, false, OnOk, OnErr, length};
ghost use Rattle.fk_isa.specs.Fits.{Fits};
ghost use Rattle.fk_asm.specs.Assembly.{AreFollowed};
ghost use Rattle.fk_asm.specs.Block.{HasBegun, with_block};
ghost use Rattle.fk_gen_access.specs.Blocks.{lines, earlier_operand};
ghost use Rattle.fk_gen_access.specs.Blocks.{earlier_result, combining, take_block, check_block};
ghost use Rattle.fk_gen_access.specs.Blocks.{shared_test, any_test, test_lines, read_block};
ghost use Rattle.fk_gen_access.specs.Blocks.{write_block, combine_block, print_block};

use crate::heap::hire;
use fk_asm::{Assembler, Blocks};
use fk_gen::registers::{DEVICES, HEAP, HEAP_MASK, SHARED, SHARED_MASK, T0, T1, T2, T3, TOP, ZERO};
use fk_gen::{BlockLine, Placed, emit_lines, emit_number, operand, result};
use fk_isa::Instruction;
use fk_meaning_operation::{Multiprefix, Operation};
use std::alloc::AllocError;

/// The offset of the device that prints a number, from the first device, in bytes.
const NUMBER_DEVICE: u32 = 0;
/// The offset of the device that prints a byte.
const BYTE_DEVICE: u32 = 4;
/// The offset of the device that ends a run at a site.
const FAULT_DEVICE: u32 = 8;
/// The upper 20 bits of the number of words of the private heap.
const HEAP_WORDS: u32 = 4;
/// The upper 20 bits of the address of the private heap.
const PRIVATE_HEAP: u32 = 0x20010;

/// The blocks of `malloc` and `shmalloc`, of checks of addresses, of reads, writes and
/// multiprefixes, and of prints.
#[derive(Clone, Copy, Drop)]
pub struct AccessBlocks;

impl Blocks<Placed> for AccessBlocks {
    ghost use Rattle.fk_core.specs.Numbers.{operation_of};
    ghost use Rattle.fk_gen_access.specs.Blocks.{HasAccess, block_of};

    ghost has_block = { HasAccess };

    ghost block = { λ placed.
        block_of (operation_of placed.op.kind placed.op.number) placed.op.depth placed.op.site };

    fn emit_op(&self, op: &Placed, into: &mut Assembler) -> Result<(), AllocError> {
        let depth = op.op.depth;
        match op.op.operation() {
            Some(Operation::Take) => take(into, depth),
            Some(Operation::Check(shared_alone)) => check(into, shared_alone, depth, op.op.site),
            Some(Operation::Read) => read(into, depth),
            Some(Operation::Write) => write(into, depth),
            Some(Operation::Combine(by)) => combine(into, by, depth),
            Some(Operation::PrintNumber) => print(into, NUMBER_DEVICE, depth),
            Some(Operation::PrintByte) => print(into, BYTE_DEVICE, depth),
            Some(Operation::Heap) => hire(into, depth),
            _ => Ok(()),
        }
    }
}

fn take(into: &mut Assembler, depth: u32) -> Result<(), AllocError>
    requires depth { depth ≤ 56 }
    requires room { length into.old.lines + length (lines (take_block depth)) < 2 ^ 30 }
    requires free { AreFollowed into.old }
    ensures added { OnOk result (into.new ≡ with_block into.old (lines (take_block depth))) }
    ensures begun { OnErr result (HasBegun (lines (take_block depth)) into.old into.new) }
{
    emit_lines(
        into,
        &[
            BlockLine::commits(operand(T0, depth)),
            BlockLine::quiet(Instruction::Addi(T0, T0, 3)),
            BlockLine::quiet(Instruction::Srli(T0, T0, 2)),
            BlockLine::quiet(Instruction::Lui(T1, HEAP_WORDS)),
            BlockLine::quiet(Instruction::Sub(T1, T1, TOP)),
            BlockLine::quiet(Instruction::Addi(T2, T0, 0xffff_ffff)),
            BlockLine::quiet(Instruction::Sltu(T2, T2, T1)),
            BlockLine::quiet(Instruction::Sub(T2, ZERO, T2)),
            BlockLine::quiet(Instruction::Slli(T1, TOP, 2)),
            BlockLine::quiet(Instruction::Lui(T3, PRIVATE_HEAP)),
            BlockLine::quiet(Instruction::Add(T1, T1, T3)),
            BlockLine::quiet(Instruction::And(T1, T1, T2)),
            BlockLine::quiet(result(T1, depth)),
            BlockLine::quiet(Instruction::And(T0, T0, T2)),
            BlockLine::quiet(Instruction::Add(TOP, TOP, T0)),
        ],
    )
}

fn check(into: &mut Assembler, shared_alone: bool, depth: u32, site: u32) -> Result<(), AllocError>
    requires depth { depth ≤ 56 }
    requires room { length into.old.lines + length (check_block shared_alone depth site) < 2 ^ 30 }
    requires free { AreFollowed into.old }
    ensures added { OnOk result
        (into.new ≡ with_block into.old (check_block shared_alone depth site)) }
    ensures begun { OnErr result
        (HasBegun (check_block shared_alone depth site) into.old into.new) }
{
    emit_number(into, site)?;
    test(into, shared_alone, depth)
}

// Ends the run at the site in `t0`, unless the last value is an address that may be used.
fn test(into: &mut Assembler, shared_alone: bool, depth: u32) -> Result<(), AllocError>
    requires depth { depth ≤ 56 }
    requires room { length into.old.lines + length (test_lines shared_alone depth) < 2 ^ 30 }
    requires free { AreFollowed into.old }
    ensures added { OnOk result (into.new ≡ with_block into.old (test_lines shared_alone depth)) }
    ensures begun { OnErr result (HasBegun (test_lines shared_alone depth) into.old into.new) }
{
    if shared_alone {
        test_shared(into, depth)
    } else {
        test_any(into, depth)
    }
}

// Ends the run at the site in `t0`, unless the last value is an address of shared data.
fn test_shared(into: &mut Assembler, depth: u32) -> Result<(), AllocError>
    requires depth { depth ≤ 56 }
    requires room { length into.old.lines + 5 < 2 ^ 30 }
    requires free { AreFollowed into.old }
    ensures added { OnOk result (into.new ≡ with_block into.old (shared_test depth)) }
    ensures begun { OnErr result (HasBegun (shared_test depth) into.old into.new) }
{
    emit_lines(
        into,
        &[
            BlockLine::quiet(operand(T1, depth)),
            BlockLine::quiet(Instruction::And(T1, T1, SHARED_MASK)),
            BlockLine::quiet(Instruction::Beq(T1, SHARED, 8)),
            BlockLine::commits(Instruction::Sw(DEVICES, T0, FAULT_DEVICE)),
            BlockLine::commits(Instruction::Addi(ZERO, ZERO, 0)),
        ],
    )
}

// Ends the run at the site in `t0`, unless the last value is an address of shared data or of the
// private heap.
fn test_any(into: &mut Assembler, depth: u32) -> Result<(), AllocError>
    requires depth { depth ≤ 56 }
    requires room { length into.old.lines + 8 < 2 ^ 30 }
    requires free { AreFollowed into.old }
    ensures added { OnOk result (into.new ≡ with_block into.old (any_test depth)) }
    ensures begun { OnErr result (HasBegun (any_test depth) into.old into.new) }
{
    emit_lines(
        into,
        &[
            BlockLine::quiet(operand(T1, depth)),
            BlockLine::quiet(Instruction::And(T2, T1, SHARED_MASK)),
            BlockLine::quiet(Instruction::And(T1, T1, HEAP_MASK)),
            BlockLine::quiet(Instruction::Beq(T2, SHARED, 12)),
            BlockLine::quiet(Instruction::Beq(T1, HEAP, 12)),
            BlockLine::commits(Instruction::Sw(DEVICES, T0, FAULT_DEVICE)),
            BlockLine::quiet(Instruction::Addi(ZERO, ZERO, 0)),
            BlockLine::commits(Instruction::Addi(ZERO, ZERO, 0)),
        ],
    )
}

fn read(into: &mut Assembler, depth: u32) -> Result<(), AllocError>
    requires depth { depth ≤ 56 }
    requires room { length into.old.lines + length (lines (read_block depth)) < 2 ^ 30 }
    requires free { AreFollowed into.old }
    ensures added { OnOk result (into.new ≡ with_block into.old (lines (read_block depth))) }
    ensures begun { OnErr result (HasBegun (lines (read_block depth)) into.old into.new) }
{
    emit_lines(
        into,
        &[
            BlockLine::quiet(operand(T0, depth)),
            BlockLine::commits(Instruction::Lw(T0, T0, 0)),
            BlockLine::quiet(result(T0, depth)),
        ],
    )
}

fn write(into: &mut Assembler, depth: u32) -> Result<(), AllocError>
    requires depth { depth ≤ 56 }
    requires room { length into.old.lines + length (lines (write_block depth)) < 2 ^ 30 }
    requires free { AreFollowed into.old }
    ensures added { OnOk result (into.new ≡ with_block into.old (lines (write_block depth))) }
    ensures begun { OnErr result (HasBegun (lines (write_block depth)) into.old into.new) }
{
    emit_lines(
        into,
        &[
            BlockLine::quiet(earlier_operand(T0, depth)),
            BlockLine::quiet(operand(T1, depth)),
            BlockLine::commits(Instruction::Sw(T0, T1, 0)),
            BlockLine::quiet(earlier_result(T1, depth)),
        ],
    )
}

fn combine(into: &mut Assembler, by: Multiprefix, depth: u32) -> Result<(), AllocError>
    requires depth { depth ≤ 56 }
    requires room { length into.old.lines + length (lines (combine_block by depth)) < 2 ^ 30 }
    requires free { AreFollowed into.old }
    ensures added { OnOk result (into.new ≡ with_block into.old (lines (combine_block by depth))) }
    ensures begun { OnErr result (HasBegun (lines (combine_block by depth)) into.old into.new) }
{
    emit_lines(
        into,
        &[
            BlockLine::quiet(earlier_operand(T0, depth)),
            BlockLine::quiet(operand(T1, depth)),
            BlockLine::commits(combining(by)),
            BlockLine::quiet(earlier_result(T0, depth)),
        ],
    )
}

fn print(into: &mut Assembler, device: u32, depth: u32) -> Result<(), AllocError>
    requires device { device ≤ 8 }
    requires depth { depth ≤ 56 }
    requires room { length into.old.lines + length (lines (print_block device depth)) < 2 ^ 30 }
    requires free { AreFollowed into.old }
    ensures added { OnOk result
        (into.new ≡ with_block into.old (lines (print_block device depth))) }
    ensures begun { OnErr result (HasBegun (lines (print_block device depth)) into.old into.new) }
{
    emit_lines(
        into,
        &[
            BlockLine::quiet(operand(T0, depth)),
            BlockLine::commits(Instruction::Sw(DEVICES, T0, device)),
        ],
    )
}

// The instruction that combines the word at an address with a value, and gives the former word.
fn combining(by: Multiprefix) -> Instruction
    ensures exact { result ≡ combining by }
    ensures fits { Fits result }
{
    match by {
        Multiprefix::MpAdd => Instruction::AmoAddW(T0, T0, T1, false, false),
        Multiprefix::MpMax => Instruction::AmoMaxW(T0, T0, T1, false, false),
        Multiprefix::MpAnd => Instruction::AmoAndW(T0, T0, T1, false, false),
        Multiprefix::MpOr => Instruction::AmoOrW(T0, T0, T1, false, false),
    }
}

// Takes the value before the last of `depth` values into a register.
fn earlier_operand(register: u8, depth: u32) -> Instruction
    requires register { register < 32 }
    requires depth { depth ≤ 56 }
    ensures exact { result ≡ earlier_operand register depth }
    ensures fits { Fits result }
{
    operand(register, depth.saturating_sub(1))
}

// Gives the place of the value before the last of `depth` values the value in a register.
fn earlier_result(register: u8, depth: u32) -> Instruction
    requires register { register < 32 }
    requires depth { depth ≤ 56 }
    ensures exact { result ≡ earlier_result register depth }
    ensures fits { Fits result }
{
    result(register, depth.saturating_sub(1))
}
