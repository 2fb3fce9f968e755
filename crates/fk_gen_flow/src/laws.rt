//! Laws of the blocks of control flow.

ghost use Rattle.fk_gen_flow.specs.Laws.{JumpsGo, FlowBlocksDo, FlowBlocksKeep, HaltsEnd};
ghost use Rattle.fk_gen_flow.specs.Laws.{HartsBegin};

/// A hart at the block of a jump is one cycle later at the block of its target.
pub fn jumps_go()
    ensures { JumpsGo }
{}

/// A hart at the block of a branch, a call or the end of a call does the operation with one commit,
/// and then stands for its processor at the block where that goes on. A call while 255 others wait
/// is a fault of its site.
pub fn flow_blocks_do()
    ensures { FlowBlocksDo }
{}

/// The block of a branch, a call or the end of a call takes a known number of cycles, and keeps the
/// registers of its node. Only the end of a call with a group frame sets `a2`, to where that frame
/// began. A branch keeps all words of frames, a call those below its own frame, and the end of a
/// call those below the word that takes the result.
pub fn flow_blocks_keep()
    ensures { FlowBlocksKeep }
{}

/// A hart at the block of a halt ends.
pub fn halts_end()
    ensures { HaltsEnd }
{}

/// From its start each hart comes to the block where `main` begins, and stands for its processor.
pub fn harts_begin()
    ensures { HartsBegin }
{}
