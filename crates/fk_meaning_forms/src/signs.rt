//! The operations of signs on two values.

ghost use Rattle.std.specs.Prelude.{◌≡◌};
ghost use Rattle.fk_meaning_forms.specs.Signs.{operator_of as operator_by, is_shift as is_a_shift};
ghost use Rattle.fk_meaning_forms.specs.Signs.{move_of as move_by};

use fk_meaning_operation::Operation;
use fk_num::Op;
use fk_syntax::Sign;

/// The effect of a sign on a pointer on its left.
#[derive(Clone, Copy, PartialEq, Eq, Debug)]
pub enum Move {
    Forth,
    Back,
    /// The sign is neither a sum nor a difference.
    NoMove,
}

/// The operation of a sign on two words, for `unsigned` numbers or for signed ones. The sign of a
/// compound assignment has that of its operator. Signs that aren't operators on two words count as
/// a sum.
pub fn operator_of(sign: Sign, unsigned: bool) -> Operation
    ensures { result ≡ operator_by sign unsigned }
{
    let (signed, otherwise, turned) = match sign {
        Sign::Minus | Sign::MinusAssign | Sign::Decrement => (Op::Sub, Op::Sub, false),
        Sign::Star | Sign::StarAssign => (Op::Mul, Op::Mul, false),
        Sign::Slash | Sign::SlashAssign => (Op::DivS, Op::DivU, false),
        Sign::Percent | Sign::PercentAssign => (Op::RemS, Op::RemU, false),
        Sign::Ampersand | Sign::AmpersandAssign => (Op::And, Op::And, false),
        Sign::Bar | Sign::BarAssign => (Op::Or, Op::Or, false),
        Sign::Caret | Sign::CaretAssign => (Op::Xor, Op::Xor, false),
        Sign::ShiftLeft | Sign::ShiftLeftAssign => (Op::Shl, Op::Shl, false),
        Sign::ShiftRight | Sign::ShiftRightAssign => (Op::ShrS, Op::ShrU, false),
        Sign::LessThan => (Op::LtS, Op::LtU, false),
        Sign::LessOrEqual => (Op::LeS, Op::LeU, false),
        Sign::GreaterThan => (Op::LtS, Op::LtU, true),
        Sign::GreaterOrEqual => (Op::LeS, Op::LeU, true),
        Sign::EqualTo => (Op::Eq, Op::Eq, false),
        Sign::NotEqualTo => (Op::Ne, Op::Ne, false),
        _ => (Op::Add, Op::Add, false),
    };
    Operation::Binary(if unsigned { otherwise } else { signed }, turned)
}

/// Whether a sign shifts. A shift is unsigned if the shifted value is; every other operator is
/// unsigned if one side is.
pub fn is_shift(sign: Sign) -> bool
    ensures { result ≡ is_a_shift sign }
{
    matches!(
        sign,
        Sign::ShiftLeft | Sign::ShiftLeftAssign | Sign::ShiftRight | Sign::ShiftRightAssign
    )
}

/// The effect of a sign on a pointer on its left.
pub fn move_of(sign: Sign) -> Move
    ensures { result ≡ move_by sign }
{
    match sign {
        Sign::Plus | Sign::PlusAssign | Sign::Increment => Move::Forth,
        Sign::Minus | Sign::MinusAssign | Sign::Decrement => Move::Back,
        _ => Move::NoMove,
    }
}
