use fk_core::{CoreOp, CoreProgram};
use fk_meaning_operation::{Operation, OwnValue};
use std::test::Fail;

#[test]
fn operations_are_read_back(rt: HostRuntime) -> Result<(), Fail> {
    let frame = Operation::Get(OwnValue::FrameAddress(128, 1_048_576));
    let mut program = CoreProgram::new(rt.alloc());
    assert_eq!(rt; program.push(CoreOp::of(frame, 7, 0, 2))?, 0);
    assert_eq!(rt; program.push(CoreOp::jump(0))?, 1);
    assert!(rt;
        matches!(
            program.ops[0].operation(),
            Some(Operation::Get(OwnValue::FrameAddress(128, 1_048_576)))
        )
    );
    assert_eq!(rt; program.ops[0].site, 7);
    assert!(rt; !program.ops[0].is_jump());
    assert!(rt; program.ops[1].is_jump());
    assert!(rt; program.ops[1].operation().is_none());
    Ok(())
}
