use fk_core::CoreOp;
use fk_lower::{CodeEvent, Lowered, build, lower};
use fk_meaning_operation::{Operation, OwnValue};
use std::alloc::Global;
use std::process::Abort;
use std::test::Fail;

const GET: CodeEvent = CodeEvent::Perform(Operation::Get(OwnValue::Rank));

const QUESTION: Operation = Operation::Branch(true);

const CHOOSE: CodeEvent = CodeEvent::Choose(QUESTION);

// while ($) { if ($) continue; if ($) break; $; } return;
static LEFT_LOOP: [CodeEvent; 18] = [
    CodeEvent::While,
    GET,
    CodeEvent::Quit(QUESTION),
    CodeEvent::Part,
    GET,
    CHOOSE,
    CodeEvent::Continue,
    CodeEvent::Aside,
    CodeEvent::Joined,
    GET,
    CHOOSE,
    CodeEvent::Break,
    CodeEvent::Aside,
    CodeEvent::Joined,
    GET,
    CodeEvent::Part,
    CodeEvent::Behind,
    CodeEvent::Ends(Operation::Halt),
];

// The kind, the target and the depth of each operation and jump in the list of this code.
static LISTED: [(u8, u32, u32); 11] = [
    (2, 0, 0),
    (9, 10, 1),
    (2, 0, 0),
    (9, 5, 1),
    (0, 0, 0),
    (2, 0, 0),
    (9, 8, 1),
    (0, 10, 0),
    (2, 0, 0),
    (0, 0, 0),
    (34, 0, 7),
];

// The list of this code for binding 1; binding 0 has no code.
fn lowered(alloc: Global) -> Result<Lowered, Fail> {
    let bodies = vec![in alloc; build(alloc, 0, &[])?, build(alloc, 0, &LEFT_LOOP)?]?;
    Ok(lower(alloc, &bodies, &[0, 1, 0, 1, 0, 1, 0, 7])?)
}

fn is_listed(rt: &impl Abort, op: &CoreOp, (kind, target, depth): (u8, u32, u32)) {
    assert!(rt;
        op.kind == kind && op.target == target && op.depth == depth,
        "{op:?}"
    );
}

#[test]
fn loop_that_is_left(rt: HostRuntime) -> Result<(), Fail> {
    let lowered = lowered(rt.alloc())?;
    assert!(rt; lowered.ops.len() == LISTED.len());
    for (op, expected) in lowered.ops.iter().zip(&LISTED) {
        is_listed(&rt, op, *expected);
    }
    assert!(rt; lowered.entries.of_bindings.as_slice() == [11, 0].as_slice());
    Ok(())
}
