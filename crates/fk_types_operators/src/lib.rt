//! The types of values, and the table of signs: the operands of each sign, and the type of its
//! result.
#![tactic(auto)]

mod signs;
mod values;

pub use signs::{binary, chosen, converts, counted, prefixed, sign_within};
pub use values::{ExpressionType, Operand, Target, Value};
