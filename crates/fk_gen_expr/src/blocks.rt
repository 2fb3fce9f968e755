//! The blocks of expressions.

ghost use Rattle.std.specs.Prelude.{◌≡◌, ◌+◌, ◌*◌, ◌^◌, ◌==◌, ◌<◌, ◌≤◌, [], ◌∷◌, OnOk, OnErr};
ghost use Rattle.std.specs.Prelude.{length};
ghost use Rattle.fk_isa.specs.Fits.{Fits, IsRegister};
ghost use Rattle.fk_asm.specs.Assembly.{AreFollowed};
ghost use Rattle.fk_asm.specs.Block.{HasBegun, with_block};
ghost use Rattle.fk_gen.specs.Lines.{first_commits};
ghost use Rattle.fk_gen.specs.Operands as values;
ghost use Rattle.fk_gen_expr.specs.Operators as operators;
ghost use Rattle.fk_gen_expr.specs.Expressions as code;

use fk_asm::{Assembler, Blocks};
use fk_gen::numbers::{at_private, high_part, low_part};
use fk_gen::registers::{
    DEVICES, END, FRAME, GROUP_FRAME, LOCAL, NUMBER, RANK, SIZE, T0, T1, T2, ZERO,
};
use fk_gen::{BlockLine, Levels, Placed, emit_lines, operand, result};
use fk_isa::Instruction;
use fk_meaning_operation::{Operation, OwnValue, Unary, Variable};
use fk_num::Op;
use std::alloc::AllocError;

/// The number of bytes of a word.
const WORD: u32 = 4;
/// The offsets, from the first device, of those that give a hart its number, the number of harts,
/// and the number of input numbers.
const HART_NUMBER: u32 = 20;

const HARTS: u32 = 24;

const INPUTS: u32 = 28;
/// The register with the address of the node's first control word.
const NODE: u8 = 10;
/// What leads from a node to the frame after the header of its group.
const PAST_HEADER: u32 = 0xf800_0020;

/// The blocks of expressions.
#[derive(Clone, Copy, Drop)]
pub struct ExpressionBlocks;

impl Blocks<Placed> for ExpressionBlocks {
    ghost use Rattle.fk_gen_expr.specs.Expressions.{HasExpression, block_of};

    ghost has_block = { HasExpression };

    ghost block = { block_of };

    fn emit_op(&self, op: &Placed, into: &mut Assembler) -> Result<(), AllocError> {
        match op.op.operation() {
            Some(operation) => {
                emit_expression(into, op.globals, op.levels, op.op.depth, operation)
            }
            None => Ok(()),
        }
    }
}

// The block of an operation of expressions, where the call has `depth` values.
fn emit_expression(
    into: &mut Assembler,
    globals: u32,
    levels: Levels,
    depth: u32,
    operation: Operation,
) -> Result<(), AllocError>
    requires known { code.IsExpression globals levels depth operation }
    requires room { length into.old.lines
        + length (code.expression_block globals levels depth operation) < 2 ^ 30 }
    requires free { AreFollowed into.old }
    ensures added { OnOk result
        (into.new ≡ with_block into.old (code.expression_block globals levels depth operation)) }
    ensures begun { OnErr result
        (HasBegun (code.expression_block globals levels depth operation) into.old into.new) }
{
    match operation {
        Operation::Push(number) => push_number(into, depth, number),
        Operation::Get(known) => get(into, globals, levels, depth, known),
        Operation::Set(variable) => {
            move_word(into, operand(T0, depth), store_variable(variable))
        }
        Operation::DropLast => alone(into, Instruction::Addi(ZERO, ZERO, 0)),
        Operation::CopyLast => { move_word(into, operand(T0, depth), result(T0, depth + 1)) }
        Operation::Apply(sign) => apply(into, depth, sign),
        Operation::Binary(sign, false) => join(into, depth, sign, T0, T1),
        Operation::Binary(sign, true) => join(into, depth, sign, T1, T0),
        Operation::Index(size) => index(into, depth, size),
        _ => Ok(()),
    }
}

fn push_number(into: &mut Assembler, depth: u32, number: u32) -> Result<(), AllocError>
    requires depth { depth < 64 }
    requires room { length into.old.lines
        + length (first_commits 1 (code.push_number depth number)) < 2 ^ 30 }
    requires free { AreFollowed into.old }
    ensures added { OnOk result
        (into.new ≡ with_block into.old (first_commits 1 (code.push_number depth number))) }
    ensures begun { OnErr result
        (HasBegun (first_commits 1 (code.push_number depth number)) into.old into.new) }
{
    let high = high_part(number);
    let low = low_part(number);
    let store = result(T0, depth + 1);
    if high == 0 {
        move_word(into, Instruction::Addi(T0, ZERO, low), store)
    } else {
        emit_lines(
            into,
            &[
                BlockLine::commits(Instruction::Lui(T0, high)),
                BlockLine::quiet(Instruction::Addi(T0, T0, low)),
                BlockLine::quiet(store),
            ],
        )
    }
}

fn get(
    into: &mut Assembler,
    globals: u32,
    levels: Levels,
    depth: u32,
    known: OwnValue,
) -> Result<(), AllocError>
    requires depth { depth < 64 }
    requires known { code.IsKnown known globals levels }
    requires room { length into.old.lines
        + length (first_commits 1 (code.get_code globals levels depth known)) < 2 ^ 30 }
    requires free { AreFollowed into.old }
    ensures added { OnOk result (into.new ≡ with_block into.old
        (first_commits 1 (code.get_code globals levels depth known))) }
    ensures begun { OnErr result
        (HasBegun (first_commits 1 (code.get_code globals levels depth known)) into.old into.new) }
{
    match known {
        OwnValue::Value(variable) => {
            move_word(into, load_variable(variable), result(T0, depth + 1))
        }
        OwnValue::Rank => alone(into, result(RANK, depth + 1)),
        OwnValue::GroupNumber => alone(into, result(NUMBER, depth + 1)),
        OwnValue::GroupSize => alone(into, result(SIZE, depth + 1)),
        OwnValue::ProcessorNumber => push_device(into, depth, HART_NUMBER),
        OwnValue::Processors => push_device(into, depth, HARTS),
        OwnValue::InputLength => push_device(into, depth, INPUTS),
        OwnValue::InputAddress => push_number(into, depth, 0x1000_0000 + 4 * globals),
        OwnValue::FrameAddress(nesting, word) => {
            frame_address(into, levels, depth, nesting, word)
        }
    }
}

// The address of a word of a group frame of the call.
fn frame_address(
    into: &mut Assembler,
    levels: Levels,
    depth: u32,
    nesting: u32,
    word: u32,
) -> Result<(), AllocError>
    requires depth { depth < 64 }
    requires word { word < 2 ^ 21 }
    requires few { levels.behind + 4 * levels.count ≤ 57 }
    requires room { length into.old.lines
        + length (first_commits 1 (code.frame_address levels depth nesting word)) < 2 ^ 30 }
    requires free { AreFollowed into.old }
    ensures added { OnOk result (into.new ≡ with_block into.old
        (first_commits 1 (code.frame_address levels depth nesting word))) }
    ensures begun { OnErr result (HasBegun
        (first_commits 1 (code.frame_address levels depth nesting word)) into.old into.new) }
{
    if nesting == 0 {
        own_address(into, depth, word)
    } else {
        part_address(into, levels, depth, nesting, word)
    }
}

// That of a word of the function's own. A register has that of the first word.
fn own_address(into: &mut Assembler, depth: u32, word: u32) -> Result<(), AllocError>
    requires depth { depth < 64 }
    requires word { word < 2 ^ 21 }
    requires room { length into.old.lines
        + length (first_commits 1 (code.own_address depth word)) < 2 ^ 30 }
    requires free { AreFollowed into.old }
    ensures added { OnOk result
        (into.new ≡ with_block into.old (first_commits 1 (code.own_address depth word))) }
    ensures begun { OnErr result
        (HasBegun (first_commits 1 (code.own_address depth word)) into.old into.new) }
{
    let high = high_part(4 * word);
    let low = low_part(4 * word);
    let store = result(T0, depth + 1);
    if high == 0 {
        move_word(into, Instruction::Addi(T0, GROUP_FRAME, low), store)
    } else {
        let upper = BlockLine::commits(Instruction::Lui(T0, high));
        let lower = BlockLine::quiet(Instruction::Addi(T0, T0, low));
        let sum = BlockLine::quiet(Instruction::Add(T0, T0, GROUP_FRAME));
        emit_lines(into, &[upper, lower, sum, BlockLine::quiet(store)])
    }
}

// That of a word of a part's, which begins after the header of its group.
fn part_address(
    into: &mut Assembler,
    levels: Levels,
    depth: u32,
    nesting: u32,
    word: u32,
) -> Result<(), AllocError>
    requires depth { depth < 64 }
    requires word { word < 2 ^ 21 }
    requires few { levels.behind + 4 * levels.count ≤ 57 }
    requires room { length into.old.lines
        + length (first_commits 1 (code.part_address levels depth nesting word)) < 2 ^ 30 }
    requires free { AreFollowed into.old }
    ensures added { OnOk result (into.new ≡ with_block into.old
        (first_commits 1 (code.part_address levels depth nesting word))) }
    ensures begun { OnErr result (HasBegun
        (first_commits 1 (code.part_address levels depth nesting word)) into.old into.new) }
{
    let load = BlockLine::commits(load_node(levels, levels.nest.saturating_sub(nesting)));
    let number = PAST_HEADER + 4 * word;
    let high = high_part(number);
    let low = low_part(number);
    let store = result(T0, depth + 1);
    if high == 0 {
        let sum = BlockLine::quiet(Instruction::Addi(T0, T1, low));
        emit_lines(into, &[load, sum, BlockLine::quiet(store)])
    } else {
        emit_lines(
            into,
            &[
                load,
                BlockLine::quiet(Instruction::Lui(T0, high)),
                BlockLine::quiet(Instruction::Addi(T0, T0, low)),
                BlockLine::quiet(Instruction::Add(T0, T0, T1)),
                BlockLine::quiet(store),
            ],
        )
    }
}

// A block of one instruction.
fn alone(into: &mut Assembler, instruction: Instruction) -> Result<(), AllocError>
    requires fits { Fits instruction }
    requires room { length into.old.lines + 1 < 2 ^ 30 }
    requires free { AreFollowed into.old }
    ensures added { OnOk result
        (into.new ≡ with_block into.old (first_commits 1 (instruction ∷ []))) }
    ensures begun { OnErr result
        (HasBegun (first_commits 1 (instruction ∷ [])) into.old into.new) }
{
    emit_lines(into, &[BlockLine::commits(instruction)])
}

// A block of a load and a store.
fn move_word(into: &mut Assembler, load: Instruction, store: Instruction) -> Result<(), AllocError>
    requires load { Fits load }
    requires store { Fits store }
    requires room { length into.old.lines + 2 < 2 ^ 30 }
    requires free { AreFollowed into.old }
    ensures added { OnOk result
        (into.new ≡ with_block into.old (first_commits 1 (load ∷ store ∷ []))) }
    ensures begun { OnErr result
        (HasBegun (first_commits 1 (load ∷ store ∷ [])) into.old into.new) }
{
    emit_lines(into, &[BlockLine::commits(load), BlockLine::quiet(store)])
}

fn push_device(into: &mut Assembler, depth: u32, offset: u32) -> Result<(), AllocError>
    requires depth { depth < 64 }
    requires offset { offset ≤ 28 }
    requires room { length into.old.lines + 2 < 2 ^ 30 }
    requires free { AreFollowed into.old }
    ensures added { OnOk result
        (into.new ≡ with_block into.old (first_commits 1 (code.push_device depth offset))) }
    ensures begun { OnErr result
        (HasBegun (first_commits 1 (code.push_device depth offset)) into.old into.new) }
{
    move_word(
        into,
        Instruction::Lw(T0, DEVICES, offset),
        result(T0, depth + 1),
    )
}

fn index(into: &mut Assembler, depth: u32, size: u32) -> Result<(), AllocError>
    requires two { 2 ≤ depth }
    requires depth { depth ≤ 64 }
    requires room { length into.old.lines
        + length (first_commits 1 (code.index_code depth size)) < 2 ^ 30 }
    requires free { AreFollowed into.old }
    ensures added { OnOk result
        (into.new ≡ with_block into.old (first_commits 1 (code.index_code depth size))) }
    ensures begun { OnErr result
        (HasBegun (first_commits 1 (code.index_code depth size)) into.old into.new) }
{
    if size == WORD {
        emit_lines(
            into,
            &[
                BlockLine::commits(operand(T0, depth - 1)),
                BlockLine::quiet(operand(T1, depth)),
                BlockLine::quiet(Instruction::Slli(T1, T1, 2)),
                BlockLine::quiet(Instruction::Add(T0, T0, T1)),
                BlockLine::quiet(result(T0, depth - 1)),
            ],
        )
    } else {
        emit_lines(
            into,
            &[
                BlockLine::commits(operand(T0, depth - 1)),
                BlockLine::quiet(operand(T1, depth)),
                BlockLine::quiet(Instruction::Lui(T2, high_part(size))),
                BlockLine::quiet(Instruction::Addi(T2, T2, low_part(size))),
                BlockLine::quiet(Instruction::Mul(T1, T1, T2)),
                BlockLine::quiet(Instruction::Add(T0, T0, T1)),
                BlockLine::quiet(result(T0, depth - 1)),
            ],
        )
    }
}

fn apply(into: &mut Assembler, depth: u32, sign: Unary) -> Result<(), AllocError>
    requires depth { depth ≤ 64 }
    requires room { length into.old.lines + 3 < 2 ^ 30 }
    requires free { AreFollowed into.old }
    ensures added { OnOk result
        (into.new ≡ with_block into.old (first_commits 1 (values.operand T0 depth
        ∷ operators.sign_instruction sign ∷ values.result T0 depth ∷ []))) }
    ensures begun { OnErr result (HasBegun (first_commits 1 (values.operand T0 depth
        ∷ operators.sign_instruction sign ∷ values.result T0 depth ∷ [])) into.old into.new) }
{
    emit_lines(
        into,
        &[
            BlockLine::commits(operand(T0, depth)),
            BlockLine::quiet(sign_instruction(sign)),
            BlockLine::quiet(result(T0, depth)),
        ],
    )
}

// The instruction of a sign, on the word in t0.
fn sign_instruction(sign: Unary) -> Instruction
    ensures exact { result ≡ operators.sign_instruction sign }
    ensures fits { Fits result }
{
    match sign {
        Unary::Negate => Instruction::Sub(T0, ZERO, T0),
        Unary::Complement => Instruction::Xori(T0, T0, 0xffff_ffff),
        Unary::Not => Instruction::Sltiu(T0, T0, 1),
    }
}

// An operator on the last two values, which come to these registers.
fn join(into: &mut Assembler, depth: u32, sign: Op, first: u8, second: u8) -> Result<(), AllocError>
    requires two { 2 ≤ depth }
    requires depth { depth ≤ 64 }
    requires first { IsRegister first }
    requires second { IsRegister second }
    requires room { length into.old.lines
        + length (first_commits 1 (code.join_code depth sign first second)) < 2 ^ 30 }
    requires free { AreFollowed into.old }
    ensures added { OnOk result (into.new
        ≡ with_block into.old (first_commits 1 (code.join_code depth sign first second))) }
    ensures begun { OnErr result
        (HasBegun (first_commits 1 (code.join_code depth sign first second)) into.old into.new) }
{
    let a = BlockLine::commits(operand(first, depth - 1));
    let b = BlockLine::quiet(operand(second, depth));
    let begin = BlockLine::quiet(first_instruction(sign));
    let store = BlockLine::quiet(result(T0, depth - 1));
    let mask = BlockLine::quiet(Instruction::Sub(T2, ZERO, T2));
    match sign {
        Op::LeS | Op::LeU => {
            let flip = BlockLine::quiet(Instruction::Xori(T0, T0, 1));
            emit_lines(into, &[a, b, begin, flip, store])
        }
        Op::Eq => {
            let is_zero = BlockLine::quiet(Instruction::Sltiu(T0, T0, 1));
            emit_lines(into, &[a, b, begin, is_zero, store])
        }
        Op::Ne => {
            let is_other = BlockLine::quiet(Instruction::Sltu(T0, ZERO, T0));
            emit_lines(into, &[a, b, begin, is_other, store])
        }
        Op::MinS | Op::MinU => {
            let gap = BlockLine::quiet(Instruction::Sub(T1, T1, T0));
            let masked = BlockLine::quiet(Instruction::And(T1, T1, T2));
            let sum = BlockLine::quiet(Instruction::Add(T0, T1, T0));
            emit_lines(into, &[a, b, begin, mask, gap, masked, sum, store])
        }
        Op::MaxS | Op::MaxU => {
            let gap = BlockLine::quiet(Instruction::Sub(T0, T0, T1));
            let masked = BlockLine::quiet(Instruction::And(T0, T0, T2));
            let sum = BlockLine::quiet(Instruction::Add(T0, T0, T1));
            emit_lines(into, &[a, b, begin, mask, gap, masked, sum, store])
        }
        _ => emit_lines(into, &[a, b, begin, store]),
    }
}

// The first instruction of an operator, on the words in t0 and t1.
fn first_instruction(sign: Op) -> Instruction
    ensures exact { result ≡ operators.first_instruction sign }
    ensures fits { Fits result }
{
    match sign {
        Op::Add => Instruction::Add(T0, T0, T1),
        Op::Sub | Op::Eq | Op::Ne => Instruction::Sub(T0, T0, T1),
        Op::Mul => Instruction::Mul(T0, T0, T1),
        Op::MulHS => Instruction::Mulh(T0, T0, T1),
        Op::MulHSU => Instruction::Mulhsu(T0, T0, T1),
        Op::MulHU => Instruction::Mulhu(T0, T0, T1),
        Op::DivS => Instruction::Div(T0, T0, T1),
        Op::DivU => Instruction::Divu(T0, T0, T1),
        Op::RemS => Instruction::Rem(T0, T0, T1),
        Op::RemU => Instruction::Remu(T0, T0, T1),
        Op::And => Instruction::And(T0, T0, T1),
        Op::Or => Instruction::Or(T0, T0, T1),
        Op::Xor => Instruction::Xor(T0, T0, T1),
        Op::Shl => Instruction::Sll(T0, T0, T1),
        Op::ShrS => Instruction::Sra(T0, T0, T1),
        Op::ShrU => Instruction::Srl(T0, T0, T1),
        Op::LtS => Instruction::Slt(T0, T0, T1),
        Op::LtU => Instruction::Sltu(T0, T0, T1),
        Op::LeS => Instruction::Slt(T0, T1, T0),
        Op::LeU => Instruction::Sltu(T0, T1, T0),
        Op::MinS | Op::MaxS => Instruction::Slt(T2, T1, T0),
        Op::MinU | Op::MaxU => Instruction::Sltu(T2, T1, T0),
    }
}

// Loads the node of the group so many levels outward into `t1`.
fn load_node(levels: Levels, out: u32) -> Instruction
    requires few { levels.behind + 4 * levels.count ≤ 57 }
    ensures exact { result ≡ code.load_node (out == 0) levels out }
    ensures fits { Fits result }
{
    if out == 0 {
        return Instruction::Addi(T1, NODE, 0);
    }
    let word = levels.behind + 4 * levels.count.saturating_sub(out) + 1;
    Instruction::Lw(T1, FRAME, at_private(word))
}

fn load_variable(variable: Variable) -> Instruction
    requires { code.IsReached variable }
    ensures exact { result ≡ code.load_variable variable }
    ensures fits { Fits result }
{
    match variable {
        Variable::Private(place) => Instruction::Lw(T0, FRAME, at_private(place)),
        Variable::OfFile(place) => Instruction::Lw(T0, LOCAL, at_private(place)),
    }
}

fn store_variable(variable: Variable) -> Instruction
    requires { code.IsReached variable }
    ensures exact { result ≡ code.store_variable variable }
    ensures fits { Fits result }
{
    match variable {
        Variable::Private(place) => Instruction::Sw(FRAME, T0, at_private(place)),
        Variable::OfFile(place) => Instruction::Sw(LOCAL, T0, at_private(place)),
    }
}
