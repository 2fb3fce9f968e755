//! The operators on words.
ghost use Rattle.std.specs.Prelude.{◌≡◌, pos, ◌*ℤ◌, int_lt};
ghost use Rattle.fk_num.specs.Op.{applied, signed_quotient, signed_remainder, upper_word};
ghost use Rattle.fk_num.specs.Word.{signed};

/// An operator on two words, after the instructions of RV32I and of its M extension
/// (RISC-V Unprivileged ISA, "RV32I Base Integer Instruction Set" and "M" Extension).
/// The names end in S for signed and U for unsigned operands.
#[derive(Clone, Copy, PartialEq, Eq)]
pub enum Op {
    Add,
    Sub,
    /// The low word of the product.
    Mul,
    /// The high word of the product of two signed operands.
    MulHS,
    /// The high word of the product of a signed and an unsigned operand.
    MulHSU,
    /// The high word of the product of two unsigned operands.
    MulHU,
    /// The quotient, rounded towards zero. Division by zero gives all ones, and -2^31 by -1 gives
    /// -2^31.
    DivS,
    DivU,
    /// The remainder, with the dividend's sign. Division by zero gives the dividend, and -2^31 by
    /// -1 gives 0.
    RemS,
    RemU,
    And,
    Or,
    Xor,
    /// The shifts go by the low five bits of the right operand.
    Shl,
    /// Copies the sign bit.
    ShrS,
    ShrU,
    /// The comparisons give 1 if they hold, else 0.
    LtS,
    LtU,
    LeS,
    LeU,
    Eq,
    Ne,
    MinS,
    MaxS,
    MinU,
    MaxU,
}

/// The word that an operator gives for two words.
#[inline]
pub fn apply(op: Op, a: u32, b: u32) -> u32
    ensures { result ≡ applied op a b }
{
    match op {
        Op::Add => a.wrapping_add(b),
        Op::Sub => a.wrapping_sub(b),
        Op::Mul => a.wrapping_mul(b),
        Op::MulHS => high_signed(a, b),
        Op::MulHSU => high_mixed(a, b),
        Op::MulHU => high_unsigned(a, b),
        Op::DivS => quotient_signed(a, b),
        Op::DivU => a.checked_div(b).unwrap_or(u32::MAX),
        Op::RemS => remainder_signed(a, b),
        Op::RemU => a.checked_rem(b).unwrap_or(a),
        Op::And => a & b,
        Op::Or => a | b,
        Op::Xor => a ^ b,
        Op::Shl => a.wrapping_shl(b),
        Op::ShrS => shift_signed(a, b),
        Op::ShrU => a.wrapping_shr(b),
        Op::LtS => u32::from(is_less_signed(a, b)),
        Op::LtU => u32::from(a < b),
        Op::LeS => u32::from(!is_less_signed(b, a)),
        Op::LeU => u32::from(a <= b),
        Op::Eq => u32::from(a == b),
        Op::Ne => u32::from(a != b),
        Op::MinS => if is_less_signed(b, a) { b } else { a },
        Op::MaxS => if is_less_signed(b, a) { a } else { b },
        Op::MinU => a.min(b),
        Op::MaxU => a.max(b),
    }
}

fn upper_half(product: i64) -> u32
    ensures { result ≡ upper_word product }
{
    (product.cast_unsigned() >> 32) as u32
}

fn high_unsigned(a: u32, b: u32) -> u32
    ensures { result ≡ upper_word (pos a *ℤ pos b) }
{
    (u64::from(a) * u64::from(b) >> 32) as u32
}

fn high_mixed(a: u32, b: u32) -> u32
    ensures { result ≡ upper_word (signed a *ℤ pos b) }
{
    upper_half(i64::from(a.cast_signed()) * i64::from(b))
}

fn high_signed(a: u32, b: u32) -> u32
    ensures { result ≡ upper_word (signed a *ℤ signed b) }
{
    upper_half(i64::from(a.cast_signed()) * i64::from(b.cast_signed()))
}

fn quotient_signed(a: u32, b: u32) -> u32
    ensures { result ≡ signed_quotient a b }
{
    if b == 0 {
        u32::MAX
    } else {
        a.cast_signed()
            .wrapping_div(b.cast_signed())
            .cast_unsigned()
    }
}

fn remainder_signed(a: u32, b: u32) -> u32
    ensures { result ≡ signed_remainder a b }
{
    if b == 0 {
        a
    } else {
        a.cast_signed()
            .wrapping_rem(b.cast_signed())
            .cast_unsigned()
    }
}

fn shift_signed(a: u32, b: u32) -> u32
    ensures { result ≡ applied Op.ShrS a b }
{
    a.cast_signed().wrapping_shr(b).cast_unsigned()
}

fn is_less_signed(a: u32, b: u32) -> bool
    ensures { result ≡ int_lt (signed a) (signed b) }
{
    a.cast_signed() < b.cast_signed()
}
