//! The bindings of the tokens of a program.

ghost use Rattle.std.specs.Prelude.{◌≡◌, ◌<◌, ◌^◌, ℕ, length, map, replicate, IfOk};
ghost use Rattle.fk_syntax.specs.Program.{ProgramTree};
ghost use Rattle.fk_syntax.specs.WellFormed.{IsWellFormed};
ghost use Rattle.fk_types_structs.specs.Whole.{structs_in, IsSound};
ghost use Rattle.fk_types_names.specs.Names.{AreNames};
ghost use Rattle.fk_types_names.specs.View.{declaration_of};
ghost use Rattle.fk_types_names.specs.TableView.{shown};
ghost use Rattle.fk_types_judgments.specs.Names.{Env};
ghost use Rattle.fk_types_obligations.specs.Pieces as p;
ghost use Rattle.fk_types_obligations.specs.View.{piece_of};
ghost use Rattle.fk_types_references.specs.View.{reference_of};
ghost use Rattle.fk_types_rules.specs.Noted.{AreTypes};
ghost use Rattle.fk_types_rules.specs.Bound.{token_of, pieces_references, AreBound, AreUnbound};
ghost use Rattle.fk_types_rules.specs.Apart.{AreTokensApart};
ghost use Rattle.fk_types_bindings.specs.Known.{IsKnown};
ghost use Rattle.fk_types_bindings.specs.Bodies.{AreBodies};
ghost use Rattle.fk_types_bindings.specs.Bound.{with_told, name_token, AreDeclared, AreReferred};

use crate::bodies::{bodies, meant};
use crate::found::references_in;
use crate::known::TypedProgram;
use fk_types_names::{Declaration, Names, Table};
use fk_types_obligations::Piece;
use fk_types_operators::ExpressionType;
use fk_types_references::Reference;
use fk_types_structs::Structs;
use std::alloc::{AllocError, Global};

// The greatest number of declarations that can be counted.
const MOST: usize = 4_294_967_295;

// The index of the token of a reference.
fn token_of(reference: &Reference) -> u32
    ensures { result ≡ token_of (reference_of reference.now) }
{
    match reference {
        Reference::Name(name) => name.at,
        Reference::Member(_, _, member) => member.at,
        Reference::Size(spot, _) => spot.at,
    }
}

// The index of the token of a declaration's name.
fn name_token(declaration: &Declaration) -> u32
    ensures { result ≡ name_token (declaration_of declaration.now) }
{
    match declaration {
        Declaration::Variable(variable) => variable.name.at,
        Declaration::Function(function) => function.name.at,
    }
}

// Sets the number of a token, if there is one for it.
fn set(numbers: &mut [u32], at: u32, told: Option<u32>)
    ensures { numbers.new ≡ with_told numbers.old at told }
{
    let at = at as usize;
    if let Some(number) = told
        && at < numbers.len()
    {
        numbers[at] = number;
    }
}

// Sets the bindings of declarations, at their names.
fn set_declared(numbers: &mut [u32], bodies: &Table, declared: &[Declaration])
    requires bodies { AreBodies (map declaration_of declared.now) (shown bodies.now) }
    requires few { length declared.now < 2 ^ 32 }
    ensures { AreDeclared (shown bodies.now) (map declaration_of declared.now)
        numbers.old numbers.new }
{
    for (number, declaration) in declared.iter().enumerate() {
        let meant = meant(bodies, number, declaration);
        set(numbers, name_token(declaration), Some(meant as u32));
    }
}

// Sets the bindings of references, at their tokens.
fn set_referred(numbers: &mut [u32], known: &TypedProgram, references: &[Reference])
    requires { IsSound known.now.structs.now }
    ensures { (env : Env) (program : ProgramTree) → IsKnown env program known.now
        → AreReferred env program (map reference_of references.now) numbers.old numbers.new }
{
    for reference in references {
        set(numbers, token_of(reference), known.number(reference));
    }
}

// Sets the bindings of all tokens of a program, none of which is set yet.
fn set_all(numbers: &mut [u32], known: &TypedProgram, bodies: &Table, references: &[Reference])
    requires sound { IsSound known.now.structs.now }
    requires bodies { AreBodies
        (map declaration_of known.now.names.now.declarations.items) (shown bodies.now) }
    requires few { length known.now.names.now.declarations.items < 2 ^ 32 }
    ensures bound { (env : Env) (program : ProgramTree) → IsWellFormed program
        → AreTokensApart program → length numbers.old ≡ program.tokens
        → map reference_of references.now ≡ pieces_references (p.pieces program)
        → IsKnown env program known.now → AreBound env program numbers.new }
    ensures unbound { (env : Env) (program : ProgramTree) (n : ℕ) → numbers.old ≡ replicate n 0
        → map reference_of references.now ≡ pieces_references (p.pieces program)
        → IsKnown env program known.now → AreUnbound env program numbers.new }
{
    set_declared(numbers, bodies, &known.names.declarations);
    set_referred(numbers, known, references);
}

/// The binding of each token of a program, which is a number, by the index of the token:
/// - for the name of a variable, a parameter or a function, where it is declared or in an
///   expression, the number of the declaration that it denotes, from 0 in the order of the names in
///   the text, or 2^32 - 1 for a predeclared name. The name of a function denotes the header that
///   has the body, also at its other headers;
/// - for a member after `.` or `->`, the number of words before it in its struct;
/// - for `sizeof`, the number of bytes that it gives;
/// - for every other token 0.
///
/// The types of the tokens determine the structs of the named members. It takes time linear in the
/// text. It fails only if there isn't enough memory, which includes a text with more declarations
/// than can be counted.
pub fn bindings<'k, 'p, 'a>(
    alloc: Global,
    structs: &'k Structs<'p, 'a>,
    names: &'k Names<'p, 'a>,
    pieces: &[Piece],
    types: &'k [Option<ExpressionType>],
) -> Result<Vec<u32>, AllocError>
    requires sound { IsSound structs.now }
    ensures length { IfOk result (λ numbers. length numbers.items ≡ length types.now) }
    ensures bound { IfOk result (λ numbers. (env : Env) (program : ProgramTree)
        → IsWellFormed program → AreTokensApart program → length types.now ≡ program.tokens
        → map piece_of pieces.now ≡ p.pieces program → env.structs ≡ structs_in structs.now
        → AreNames program names.now → AreTypes env program types.now
        → AreBound env program numbers.items) }
    ensures unbound { IfOk result (λ numbers. (env : Env) (program : ProgramTree)
        → map piece_of pieces.now ≡ p.pieces program → env.structs ≡ structs_in structs.now
        → AreNames program names.now → AreTypes env program types.now
        → AreUnbound env program numbers.items) }
{
    if names.declarations.len() > MOST {
        return Err(AllocError);
    }
    let bodies = bodies(alloc, &names.declarations)?;
    let references = references_in(alloc, pieces)?;
    let mut numbers = vec![in alloc; 0u32; types.len()]?;
    let known = TypedProgram {
        structs,
        names,
        types,
    };
    set_all(&mut numbers, &known, &bodies, references.list());
    Ok(numbers)
}
