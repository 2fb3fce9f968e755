//! The rules of the language.

ghost use Rattle.std.specs.Prelude.{◌≡◌};
ghost use Rattle.fk_check_rules.specs.Rules.{number_of};

/// A rule of the language, named by what it forbids.
#[derive(Clone, Copy, PartialEq, Eq)]
pub enum Rule {
    /// A variable or function that isn't declared.
    Undeclared,
    /// Two declarations of one name in one scope.
    DeclaredTwice,
    /// Headers of one function that differ, or a function without a body or with two.
    HeadersDiffer,
    /// A text without `main`, or with one that has a wrong form.
    NoMain,
    /// A call of `main`.
    MainCalled,
    /// A struct that isn't declared, or that contains itself.
    NoStruct,
    /// A variable of type `void`, or a struct as a parameter or result.
    NoVariable,
    /// An array with too many elements or none, or a type with too many words.
    WrongSize,
    /// An initial value at file scope that has more than numbers.
    NotConstant,
    /// Operands that a sign doesn't take.
    WrongOperands,
    /// An assignment to something that isn't a variable.
    NoTarget,
    /// A value that doesn't convert.
    NoConversion,
    /// A call with a wrong number of arguments.
    WrongCount,
    /// A call of something that isn't a function, or a function that isn't called.
    NoFunction,
    /// A member that the struct doesn't have.
    NoMember,
    /// A dereference of something that isn't a pointer.
    NoPointer,
    /// A condition that is neither a number nor a pointer.
    NoCondition,
    /// A `return` with a value in a function without a result, or without one in a function with a
    /// result.
    WrongReturn,
    /// A struct, or a call of a `void` function, that is used as a value.
    NoValue,
    /// An assignment to an array, or an initial value of an array or a struct.
    WholeAssigned,
    /// A `start` that isn't a direct statement of the outermost block of `main`.
    StartNotInMain,
    /// `farm` outside a synchronous region.
    FarmOutside,
    /// `seq` outside a synchronous region.
    SeqOutside,
    /// `fork` outside a synchronous region.
    ForkOutside,
    /// `barrier` in a synchronous region.
    BarrierInside,
    /// A call of a `sync` function outside a synchronous region.
    SyncCalledOutside,
    /// A call of an `async` function in a synchronous region.
    AsyncCalledInside,
    /// A `straight` function with a choice, a loop, a `barrier` or a call of a function that isn't
    /// straight.
    NotStraight,
    /// A call of `shalloc` outside a synchronous region.
    ShallocOutside,
    /// `break` or `continue` outside a loop.
    NoLoop,
    /// `return` inside `start`, `fork`, `farm` or `seq`.
    ReturnFromBody,
    /// `break` or `continue` that leaves `start`, `fork`, `farm` or `seq`.
    LoopLeavesBody,
    /// `return` inside a private split.
    ReturnFromSplit,
    /// `break` that leaves a private split.
    BreakFromSplit,
    /// `continue` that leaves a private split inside its loop.
    ContinueFromSplit,
    /// `&` on a private variable.
    PrivateAddress,
    /// An array without `sh`.
    PrivateArray,
    /// A struct variable without `sh`.
    PrivateStruct,
    /// An `sh` variable inside a function, outside a synchronous region.
    SharedOutside,
    /// An `sh` parameter of a function that isn't `sync`.
    SharedParameter,
}

impl Rule {
    /// The number of the rule, from 1 to 40.
    pub fn number(self) -> u8
        ensures { result ≡ number_of self }
    {
        match self {
            Rule::Undeclared => 1,
            Rule::DeclaredTwice => 2,
            Rule::HeadersDiffer => 3,
            Rule::NoMain => 4,
            Rule::MainCalled => 5,
            Rule::NoStruct => 6,
            Rule::NoVariable => 7,
            Rule::WrongSize => 8,
            Rule::NotConstant => 9,
            Rule::WrongOperands => 10,
            Rule::NoTarget => 11,
            Rule::NoConversion => 12,
            Rule::WrongCount => 13,
            Rule::NoFunction => 14,
            Rule::NoMember => 15,
            Rule::NoPointer => 16,
            Rule::NoCondition => 17,
            Rule::WrongReturn => 18,
            Rule::NoValue => 19,
            Rule::WholeAssigned => 20,
            Rule::StartNotInMain => 21,
            Rule::FarmOutside => 22,
            Rule::SeqOutside => 23,
            Rule::ForkOutside => 24,
            Rule::BarrierInside => 25,
            Rule::SyncCalledOutside => 26,
            Rule::AsyncCalledInside => 27,
            Rule::NotStraight => 28,
            Rule::ShallocOutside => 29,
            Rule::NoLoop => 30,
            Rule::ReturnFromBody => 31,
            Rule::LoopLeavesBody => 32,
            Rule::ReturnFromSplit => 33,
            Rule::BreakFromSplit => 34,
            Rule::ContinueFromSplit => 35,
            Rule::PrivateAddress => 36,
            Rule::PrivateArray => 37,
            Rule::PrivateStruct => 38,
            Rule::SharedOutside => 39,
            Rule::SharedParameter => 40,
        }
    }
}
