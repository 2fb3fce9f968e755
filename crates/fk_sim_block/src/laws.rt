//! Laws of the next operation of a processor, and of blocks in a group.

ghost use Rattle.fk_sim_block.specs.Next.{OperationsAreNext};
ghost use Rattle.fk_sim_block.specs.Laws.{MembersDoTogether};

/// A processor at the index of an operation does that operation, if it takes part with count 1.
pub fn operations_are_next()
    ensures { OperationsAreNext }
{}

/// Members in lockstep who come to a local operation or a request in one cycle, and take the same
/// branch, commit in one cycle and come to the next block in one cycle.
pub fn members_do_together()
    ensures { MembersDoTogether }
{}
