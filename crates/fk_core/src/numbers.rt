//! The table of numbers: the operation for which a kind and a number stand, and the number of an
//! operation.

ghost use Rattle.std.specs.Prelude.{◌≡◌, ◌+◌, ◌*◌, ◌/◌, ◌%◌, ◌^◌, ◌<◌, ◌≤◌, Some};
ghost use Rattle.fk_meaning_operation.specs.Kinds.{kind_of};
ghost use Rattle.fk_core.specs.Numbers.{is_odd, nestings, variable_of, known_of, unary_of};
ghost use Rattle.fk_core.specs.Numbers.{split_of, operator_of, operation_of, local_of as local_by};
ghost use Rattle.fk_core.specs.Numbers.{request_of as request_by, tree_step_of as tree_step_by};
ghost use Rattle.fk_core.specs.Numbers.{IsNear, IsKnownNear, HasNumber};

use fk_meaning_operation::{Multiprefix, Operation, OwnValue, SplitKind, Unary, Variable};
use fk_num::Op;

const NESTINGS: u32 = 129;

/// The local operation of a kind and a number.
pub fn local_of(kind: u8, number: u32) -> Option<Operation>
    ensures { result ≡ local_by kind number }
{
    Some(match kind {
        1 => Operation::Push(number),
        2 => Operation::Get(known(number % 9, number / 9)),
        3 => Operation::Set(variable(number)),
        4 => Operation::DropLast,
        5 => Operation::CopyLast,
        6 => Operation::Apply(unary(number)),
        7 => Operation::Binary(operator(number / 2), odd(number)),
        8 => Operation::Index(number),
        9 => Operation::Branch(odd(number)),
        10 => Operation::Take,
        11 => Operation::Leave {
            gives: odd(number / 2),
            framed: odd(number),
        },
        _ => return None,
    })
}

/// The request of a kind and a number.
pub fn request_of(kind: u8, number: u32) -> Option<Operation>
    ensures { result ≡ request_by kind number }
{
    Some(match kind {
        12 => Operation::Check(odd(number)),
        13 => Operation::Read,
        14 => Operation::Write,
        19 => Operation::PrintNumber,
        20 => Operation::PrintByte,
        21 => Operation::Heap,
        22 => Operation::Enter(number),
        _ => Operation::Combine(Multiprefix::of_kind(kind)?),
    })
}

/// The step of the tree of a kind and a number.
pub fn tree_step_of(kind: u8, number: u32) -> Option<Operation>
    ensures { result ≡ tree_step_by kind number }
{
    Some(match kind {
        23 => Operation::Begin,
        24 => Operation::Agree,
        25 => Operation::Frame {
            nesting: number % NESTINGS,
            words: number / NESTINGS,
        },
        26 => Operation::Block,
        27 => Operation::Split(split(number)),
        28 => Operation::Shrink,
        29 => Operation::End,
        30 => Operation::Resume,
        31 => Operation::Farm,
        32 => Operation::Seq,
        33 => Operation::Meet(odd(number)),
        34 => Operation::Halt,
        _ => return None,
    })
}

fn odd(number: u32) -> bool
    ensures { result ≡ is_odd number }
{
    number % 2 == 1
}

fn variable(number: u32) -> Variable
    ensures { result ≡ variable_of number }
{
    if odd(number) {
        Variable::OfFile(number / 2)
    } else {
        Variable::Private(number / 2)
    }
}

fn known(which: u32, number: u32) -> OwnValue
    ensures { result ≡ known_of which number }
{
    match which {
        0 => OwnValue::Value(variable(number)),
        1 => OwnValue::FrameAddress(number % NESTINGS, number / NESTINGS),
        2 => OwnValue::Rank,
        3 => OwnValue::GroupNumber,
        4 => OwnValue::ProcessorNumber,
        5 => OwnValue::Processors,
        6 => OwnValue::GroupSize,
        7 => OwnValue::InputLength,
        _ => OwnValue::InputAddress,
    }
}

fn unary(number: u32) -> Unary
    ensures { result ≡ unary_of number }
{
    match number {
        0 => Unary::Negate,
        1 => Unary::Complement,
        _ => Unary::Not,
    }
}

fn split(number: u32) -> SplitKind
    ensures { result ≡ split_of number }
{
    match number {
        0 => SplitKind::IfAlone,
        1 => SplitKind::IfElse,
        2 => SplitKind::AndThen,
        3 => SplitKind::OrElse,
        4 => SplitKind::Loop,
        _ => SplitKind::Fork,
    }
}

fn operator(number: u32) -> Op
    ensures { result ≡ operator_of number }
{
    match number {
        0 => Op::Add,
        1 => Op::Sub,
        2 => Op::Mul,
        3 => Op::MulHS,
        4 => Op::MulHSU,
        5 => Op::MulHU,
        6 => Op::DivS,
        7 => Op::DivU,
        8 => Op::RemS,
        9 => Op::RemU,
        10 => Op::And,
        11 => Op::Or,
        12 => Op::Xor,
        13 => Op::Shl,
        14 => Op::ShrS,
        15 => Op::ShrU,
        16 => Op::LtS,
        17 => Op::LtU,
        18 => Op::LeS,
        19 => Op::LeU,
        20 => Op::Eq,
        21 => Op::Ne,
        22 => Op::MinS,
        23 => Op::MaxS,
        24 => Op::MinU,
        _ => Op::MaxU,
    }
}

/// The number that stands for an operation, together with its kind.
pub fn number_of(operation: Operation) -> u32
    requires in_range { HasNumber operation }
    ensures { operation_of (kind_of operation) result ≡ Some operation }
{
    match operation {
        Operation::Push(number) | Operation::Index(number) | Operation::Enter(number) => number,
        Operation::Get(known) => known_number(known),
        Operation::Set(variable) => variable_number(variable),
        Operation::Apply(unary) => unary_number(unary),
        Operation::Binary(operator, turned) => two(operator_number(operator), turned),
        Operation::Branch(flag) | Operation::Check(flag) | Operation::Meet(flag) => two(0, flag),
        Operation::Leave { gives, framed } => two(two(0, gives), framed),
        Operation::Frame { nesting, words } => joined(words, NESTINGS, nesting),
        Operation::Split(split) => split_number(split),
        _ => 0,
    }
}

// The number with this quotient and remainder.
fn joined(quotient: u32, divisor: u32, remainder: u32) -> u32
    requires small { quotient * divisor + divisor < 2 ^ 32 }
    requires below { remainder < divisor }
    ensures quotient { result / divisor ≡ quotient }
    ensures remainder { result % divisor ≡ remainder }
    ensures bound { result ≤ quotient * divisor + divisor }
{
    quotient * divisor + remainder
}

fn two(half: u32, flag: bool) -> u32
    requires small { half < 2 ^ 26 }
    ensures half { result / 2 ≡ half }
    ensures flag { is_odd result ≡ flag }
    ensures bound { result < 2 ^ 27 }
{
    joined(half, 2, u32::from(flag))
}

fn variable_number(variable: Variable) -> u32
    requires near { IsNear variable }
    ensures variable { variable_of result ≡ variable }
    ensures bound { result < 2 ^ 27 }
{
    match variable {
        Variable::Private(place) => two(place, false),
        Variable::OfFile(place) => two(place, true),
    }
}

fn known_number(known: OwnValue) -> u32
    requires near { IsKnownNear known }
    ensures { known_of (result % 9) (result / 9) ≡ known }
{
    let (which, number) = match known {
        OwnValue::Value(variable) => (0, variable_number(variable)),
        OwnValue::FrameAddress(nesting, word) => (1, joined(word, NESTINGS, nesting)),
        OwnValue::Rank => (2, 0),
        OwnValue::GroupNumber => (3, 0),
        OwnValue::ProcessorNumber => (4, 0),
        OwnValue::Processors => (5, 0),
        OwnValue::GroupSize => (6, 0),
        OwnValue::InputLength => (7, 0),
        OwnValue::InputAddress => (8, 0),
    };
    joined(number, 9, which)
}

fn unary_number(unary: Unary) -> u32
    ensures { unary_of result ≡ unary }
{
    match unary {
        Unary::Negate => 0,
        Unary::Complement => 1,
        Unary::Not => 2,
    }
}

fn split_number(split: SplitKind) -> u32
    ensures { split_of result ≡ split }
{
    match split {
        SplitKind::IfAlone => 0,
        SplitKind::IfElse => 1,
        SplitKind::AndThen => 2,
        SplitKind::OrElse => 3,
        SplitKind::Loop => 4,
        SplitKind::Fork => 5,
    }
}

fn operator_number(operator: Op) -> u32
    ensures operator { operator_of result ≡ operator }
    ensures bound { result < 26 }
{
    match operator {
        Op::Add => 0,
        Op::Sub => 1,
        Op::Mul => 2,
        Op::MulHS => 3,
        Op::MulHSU => 4,
        Op::MulHU => 5,
        Op::DivS => 6,
        Op::DivU => 7,
        Op::RemS => 8,
        Op::RemU => 9,
        Op::And => 10,
        Op::Or => 11,
        Op::Xor => 12,
        Op::Shl => 13,
        Op::ShrS => 14,
        Op::ShrU => 15,
        Op::LtS => 16,
        Op::LtU => 17,
        Op::LeS => 18,
        Op::LeU => 19,
        Op::Eq => 20,
        Op::Ne => 21,
        Op::MinS => 22,
        Op::MaxS => 23,
        Op::MinU => 24,
        Op::MaxU => 25,
    }
}
