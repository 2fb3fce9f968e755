//! The blocks of all operations.

use crate::kind::Kind;
use fk_asm::{Assembler, Blocks};
use fk_gen::Placed;
use fk_gen_access::AccessBlocks;
use fk_gen_expr::ExpressionBlocks;
use fk_gen_flow::FlowBlocks;
use fk_gen_group::GroupBlocks;
use std::alloc::AllocError;

/// The blocks of all operations, each by its kind.
#[derive(Clone, Copy, Drop)]
pub struct AllBlocks;

impl Blocks<Placed> for AllBlocks {
    ghost use Rattle.fk_gen_list.specs.Kinds.{HasBlockOf, block_of};

    ghost has_block = { HasBlockOf };

    ghost block = { block_of };

    fn emit_op(&self, op: &Placed, into: &mut Assembler) -> Result<(), AllocError> {
        match Kind::of(op.op) {
            Kind::Flow => FlowBlocks.emit_op(op, into),
            Kind::Access => AccessBlocks.emit_op(op, into),
            Kind::Group => GroupBlocks.emit_op(op, into),
            Kind::Expression => ExpressionBlocks.emit_op(op, into),
        }
    }
}
