//! The state of seven processors at the beginning of texts with variables of file scope, whose only
//! tokens are the names.

ghost use Rattle.std.specs.Prelude.{◌≡◌};
ghost use Rattle.fk_meaning_store.specs.View.{processors_of};

use crate::store::answers;
use crate::tree::has_members;
use fk_layout::lay_out;
use fk_meaning_state::{Processor, State, opening};
use fk_meaning_store::{Request, Store32};
use fk_syntax::{
    Base, Declared, Expr, Facts, Item, Kind, Name, Note, Place, Program, Spot, TypeName,
};
use std::alloc::{AllocError, Global};
use std::process::Abort;
use std::test::Fail;

const PLACE: Place = Place { line: 1, column: 1 };

const WORD_0: u32 = 0x1000_0000;

/// An `int` of file scope, or an array of `int`, and its initial value.
struct Variable {
    shared: bool,
    length: Option<u32>,
    first: Option<u32>,
}

/// Variables, the facts of each of their tokens, and the initial state.
struct Case {
    variables: &'static [Variable],
    shared: bool,
    kind: Kind,
    input: &'static [u32],
    /// The number of words of the shared variables.
    words: usize,
    /// The private variables of each processor.
    own: &'static [u32],
    /// The first words of shared data.
    data: [u32; 3],
}

const INT: Kind = Kind {
    words: 1,
    unsigned: false,
    array: false,
    step: 0,
};

const THREE_INTS: Kind = Kind {
    words: 3,
    unsigned: false,
    array: true,
    step: 4,
};

static CASES: [Case; 2] = [
    // sh int a = 5; pr int b = 9;
    Case {
        variables: &[
            Variable {
                shared: true,
                length: None,
                first: Some(5),
            },
            Variable {
                shared: false,
                length: None,
                first: Some(9),
            },
        ],
        shared: false,
        kind: INT,
        input: &[7],
        words: 1,
        own: &[9],
        data: [5, 7, 0],
    },
    // sh int s[3];
    Case {
        variables: &[Variable {
            shared: true,
            length: Some(3),
            first: None,
        }],
        shared: true,
        kind: THREE_INTS,
        input: &[],
        words: 3,
        own: &[],
        data: [0, 0, 0],
    },
];

// A variable whose name has this token.
fn declared(variable: &Variable, at: u32) -> Declared<'static> {
    let spot = Spot { at, place: PLACE };
    let first = match variable.first {
        Some(word) => Some(Expr::Number(spot, word, false)),
        None => None,
    };
    Declared {
        shared: variable.shared,
        kind: TypeName {
            base: Base::Int,
            stars: 0,
        },
        name: Name {
            bytes: b"v".as_slice(),
            at,
            place: PLACE,
        },
        length: variable.length,
        first,
    }
}

// A text that declares the variables of a case.
fn text_of(alloc: Global, case: &Case) -> Result<Program<'static>, AllocError> {
    let mut variables = Vec::new(alloc);
    let mut tokens: u32 = 0;
    for variable in case.variables {
        variables.push(declared(variable, tokens))?;
        tokens = tokens.wrapping_add(1);
    }
    Ok(Program {
        items: vec![in alloc; Item::Variables(variables)]?,
        end: PLACE,
        tokens,
    })
}

// The facts of the tokens of a case.
fn facts_of(alloc: Global, case: &Case) -> Result<Facts, AllocError> {
    let note = Note {
        kind: 0,
        binding: 0,
        sync: false,
        shared: case.shared,
        splits: false,
    };
    Ok(Facts {
        notes: vec![in alloc; note; case.variables.len()]?,
        kinds: vec![in alloc; case.kind]?,
    })
}

// The initial state of seven processors for a text.
fn opened(
    rt: &impl Abort,
    alloc: Global,
    program: &Program,
    facts: &Facts,
    case: &Case,
) -> Result<State, Fail> {
    let layout = lay_out(alloc, program, facts)?;
    assert!(rt; layout.words.len() == case.words);
    assert!(rt; case.words <= 8 && case.input.len() <= 8);
    Ok(opening(alloc, program, facts, &layout, case.input, 7)?)
}

// Whether a processor begins in the root, in a group of all seven, with these private variables.
fn begins(processor: &Processor, own: &[u32]) -> bool {
    let level = processor.level;
    level.number == 0
        && level.rank == processor.number
        && level.size == 7
        && processor.own.as_slice() == own
}

// Checks that shared data begins with these words.
fn has_words(rt: &impl Abort, store: &mut Store32, words: [u32; 3])
    requires { processors_of store.old ≡ 7 }
{
    answers(rt, store, Request::Read(WORD_0), 6, Ok(words[0]));
    answers(rt, store, Request::Read(WORD_0 + 4), 6, Ok(words[1]));
    answers(rt, store, Request::Read(WORD_0 + 8), 6, Ok(words[2]));
}

// Checks that seven processors begin the text of a case as it expects.
fn begin(rt: &impl Abort, alloc: Global, case: &Case) -> Result<(), Fail> {
    let program = text_of(alloc, case)?;
    let facts = facts_of(alloc, case)?;
    let mut state = opened(rt, alloc, &program, &facts, case)?;
    has_members(rt, state.tree(), 0, &[0, 1, 2, 3, 4, 5, 6]);
    for processor in state.processors() {
        assert!(rt; begins(processor, case.own));
    }
    let store = state.store();
    assert!(rt; store.processors() == 7);
    has_words(rt, store, case.data);
    Ok(())
}

#[test]
fn seven_processors_begin(rt: HostRuntime) -> Result<(), Fail> {
    for case in &CASES {
        begin(&rt, rt.alloc(), case)?;
    }
    Ok(())
}
