use fk_syntax::{Expr, Name, Place, Spot, Suffix};
use fk_types_references::{Reference, References};
use std::alloc::{AllocError, Global};
use std::process::Abort;

const PLACE: Place = Place { line: 1, column: 1 };

fn name(bytes: &'static [u8], at: u32) -> Name<'static> {
    Name {
        bytes,
        at,
        place: PLACE,
    }
}

fn spot(at: u32) -> Spot {
    Spot { at, place: PLACE }
}

// The expression s.m->k, with the tokens 0 to 4.
fn chain(alloc: Global) -> Result<Expr<'static>, AllocError> {
    let suffixes = vec![in alloc;
        Suffix::Dot(spot(1), name(b"m", 2)),
        Suffix::Arrow(spot(3), name(b"k", 4)),
    ]?;
    Expr::postfix(alloc, Expr::Named(name(b"s", 0)), suffixes)
}

// Checks that these are the references of that chain.
fn are_of_chain(rt: &impl Abort, list: &[Reference]) {
    assert!(rt; list.len() == 3);
    assert!(rt; matches!(&list[0], Reference::Name(_)));
    assert!(rt; matches!(&list[1], Reference::Member(0, false, _)));
    assert!(rt; matches!(&list[2], Reference::Member(1, true, _)));
}

#[test]
fn a_member_is_told_with_the_token_before_it(rt: HostRuntime) -> Result<(), AllocError> {
    let expression = chain(rt.alloc())?;
    let mut references = References::new(rt.alloc());
    assert!(rt; references.add(&expression)? == 3);
    are_of_chain(&rt, references.list());
    Ok(())
}

// Adds an expression that may be absent, and checks the number of references after it.
fn names<'a>(
    rt: &impl Abort,
    references: &mut References<'a>,
    expression: &Option<Expr<'a>>,
    count: usize,
) -> Result<(), AllocError> {
    references.add_optional(expression)?;
    assert!(rt; references.list().len() == count);
    Ok(())
}

#[test]
fn what_is_absent_names_nothing(rt: HostRuntime) -> Result<(), AllocError> {
    let mut references = References::new(rt.alloc());
    names(&rt, &mut references, &None, 0)?;
    let named = Some(Expr::Named(name(b"x", 7)));
    names(&rt, &mut references, &named, 1)?;
    Ok(())
}
