use fk_meaning_forms::{operator_of, text_bytes};
use fk_meaning_operation::Operation;
use fk_num::Op;
use fk_syntax::Sign;
use std::test::Fail;

#[test]
fn texts_have_escapes(rt: HostRuntime) -> Result<(), Fail> {
    let bytes = text_bytes(rt.alloc(), b"\"a\\n\\\\\\\"\\0z\"")?;
    assert_eq!(rt; bytes.as_slice(), b"a\n\\\"\0z".as_slice());
    let none = text_bytes(rt.alloc(), b"\"\"")?;
    assert!(rt; none.is_empty());
    Ok(())
}

#[test]
fn signs_have_operators(rt: HostRuntime) {
    assert!(rt;
        matches!(
            operator_of(Sign::GreaterThan, true),
            Operation::Binary(Op::LtU, true)
        )
    );
    assert!(rt;
        matches!(
            operator_of(Sign::ShiftRightAssign, false),
            Operation::Binary(Op::ShrS, false)
        )
    );
    assert!(rt;
        matches!(
            operator_of(Sign::Increment, false),
            Operation::Binary(Op::Add, false)
        )
    );
}
