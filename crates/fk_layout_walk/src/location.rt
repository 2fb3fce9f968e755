//! Where the result of an expression is when its operations are done.

use fk_meaning_operation::Variable;
use fk_syntax::{Name, Spot};

/// Where the result of an expression is when its operations are done.
#[derive(Clone, Copy)]
pub enum ResultLocation<'a> {
    /// It is the last value.
    OnList,
    /// At an address that isn't checked yet. The flag tells whether the address comes from a
    /// dereference or an index.
    AtAddress(bool, Spot),
    /// In a private word.
    InWord(Variable),
    /// It is the name of a function.
    ToCall(Name<'a>),
}
