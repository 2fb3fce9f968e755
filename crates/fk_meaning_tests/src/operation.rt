use fk_meaning_operation::{FaultKind, Multiprefix, Operation, SplitKind};
use fk_num::Op;

// Operations with their kinds and the faults that they can have.
static OPERATIONS: [(Operation, u8, Option<FaultKind>); 7] = [
    (Operation::Push(7), 1, None),
    (Operation::Binary(Op::Add, false), 7, None),
    (Operation::Check(true), 12, Some(FaultKind::BadAddress)),
    (Operation::Combine(Multiprefix::MpMax), 16, None),
    (Operation::Block, 26, None),
    (
        Operation::Split(SplitKind::Loop),
        27,
        Some(FaultKind::GroupSpace),
    ),
    (Operation::Halt, 34, None),
];

#[test]
fn operations_have_kinds_and_faults(rt: HostRuntime) {
    for (operation, kind, fault) in &OPERATIONS {
        assert!(rt; operation.kind() == *kind, "kind {kind}");
        assert!(rt; operation.fault() == *fault, "kind {kind}");
    }
}
