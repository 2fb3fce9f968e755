//! The facts of a program that keeps the rules of the language: the type of each token, what its
//! name denotes, and how the statement around it runs.

use crate::place::Place;

/// The facts of the token with one index. Fields that don't apply to the token, such as those of a
/// `;`, may have any value.
#[derive(Clone, Copy, PartialEq, Eq)]
pub struct Note {
    /// The index in `Facts::kinds` of the type of the expression whose sign, name or number the
    /// token is.
    pub kind: u32,
    /// A number that depends on the token:
    /// - for a name, the index of the declaration that it denotes, or 2^32 - 1 for a predeclared
    ///   name. The variables, parameters and functions of a text are counted from 0 in the order of
    ///   their names;
    /// - for a member after `.` or `->`, the number of words before it in its struct;
    /// - for `sizeof`, the number of bytes that it gives.
    pub binding: u32,
    /// Whether the token is in a synchronous region.
    pub sync: bool,
    /// Whether the expression is shared; else it is private to each processor.
    pub shared: bool,
    /// Whether a group splits here.
    pub splits: bool,
}

/// A type, as far as code generation depends on it. A word has four bytes.
#[derive(Clone, Copy, PartialEq, Eq)]
pub struct Kind {
    /// The number of words of a value of the type.
    pub words: u32,
    /// Whether it is `unsigned` or a pointer, whose numbers are unsigned.
    pub unsigned: bool,
    /// Whether it is an array.
    pub array: bool,
    /// The size in bytes of what a pointer points to, or of an element of an array. It is 0 for
    /// `void *` and all other types.
    pub step: u32,
}

/// The facts of a program.
#[derive(Drop)]
pub struct Facts {
    /// A note for each token, by its index.
    pub notes: Vec<Note>,
    /// The types that occur, in the order of their first occurrence.
    pub kinds: Vec<Kind>,
}

/// Why a program has no facts.
#[derive(Clone, Copy, PartialEq, Eq, Debug)]
pub enum CheckFault {
    /// A rule of the language is broken: the place, and the number of the rule, from 1 to 40.
    Rule(Place, u8),
    /// There isn't enough memory.
    Memory,
}
