//! Operations and their constants.

use fk_num::Op;

/// A private word of a processor.
#[derive(Clone, Copy)]
pub enum Variable {
    /// A parameter or variable of the running call, by its index.
    Private(u32),
    /// A private variable of file scope, by its index.
    OfFile(u32),
}

/// A value that a processor can push without a request.
#[derive(Clone, Copy)]
pub enum OwnValue {
    Value(Variable),
    /// `$`.
    Rank,
    /// `@`.
    GroupNumber,
    ProcessorNumber,
    /// The number of processors in the run.
    Processors,
    /// The value of `groupsize()`.
    GroupSize,
    /// The number of input numbers.
    InputLength,
    /// The address of a word of the frame that was taken at a nesting, 0 for that of the function.
    FrameAddress(u32, u32),
    /// The address of the first input number.
    InputAddress,
}

#[derive(Clone, Copy, PartialEq, Eq)]
pub enum Unary {
    Negate,
    Complement,
    Not,
}

/// An operator that combines a word of shared data with a value.
#[derive(Clone, Copy, PartialEq, Eq)]
pub enum Multiprefix {
    MpAdd,
    /// The greater one of two signed numbers.
    MpMax,
    MpAnd,
    MpOr,
}

/// How a split distributes the members of a group among parts.
#[derive(Clone, Copy, PartialEq, Eq)]
pub enum SplitKind {
    /// `if` without `else`: one part, for the members whose value isn't 0.
    IfAlone,
    /// `if` with `else`, and `?:`: one part for the members whose value isn't 0, and one for the
    /// others.
    IfElse,
    /// `&&`: one part, for the members whose value isn't 0. The others get 0.
    AndThen,
    /// `||`: one part, for the members whose value is 0. The others get 1.
    OrElse,
    /// A loop: one part for all members.
    Loop,
    /// `fork`: each member enters the part that it names, if there is one.
    Fork,
}

#[derive(Clone, Copy)]
pub enum Operation {
    /// Pushes a number, or the address of a global.
    Push(u32),
    Get(OwnValue),
    /// Stores the last value, and keeps it.
    Set(Variable),
    DropLast,
    CopyLast,
    Apply(Unary),
    /// An operator on the last two values, which are swapped if the flag is `true`.
    Binary(Op, bool),
    /// Takes an index and an address, and pushes the address of that element. The size of an
    /// element is in bytes.
    Index(u32),
    /// Takes the first branch if the value isn't 0; with `false` if it is 0.
    Branch(bool),
    /// `malloc`.
    Take,
    /// Ends a call, with a value or without. `framed` tells whether the function took a group
    /// frame.
    Leave { gives: bool, framed: bool },
    /// Checks an address; with `true` it must be one of shared data, for a multiprefix.
    Check(bool),
    Read,
    Write,
    Combine(Multiprefix),
    PrintNumber,
    PrintByte,
    /// `shmalloc`.
    Heap,
    /// Begins a call with this number of arguments.
    Enter(u32),
    /// Begins the group of a `start`.
    Begin,
    Agree,
    /// Takes a group frame of `words` words at a nesting, 0 for that of a function.
    Frame { nesting: u32, words: u32 },
    /// `shalloc`.
    Block,
    Split(SplitKind),
    Shrink,
    End,
    Resume,
    Farm,
    Seq,
    /// A meet: at a `barrier`, or with `true` at the end of a `farm` or `seq`.
    Meet(bool),
    Halt,
}
