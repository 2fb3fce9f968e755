//! Laws of group frames.

ghost use Rattle.fk_lockstep_frames.specs.Taken.{FramesAreAsTold, FramesLieInSpaces};
ghost use Rattle.fk_lockstep_frames.specs.Lists.{ListsTellFrames};

/// In every run, whatever its schedule, the spaces of a processor's groups and the frames of its
/// calls are as its remaining work tells. The frames of a group lie behind its header, one after
/// another, in the order in which they were taken, and the first free word comes after the last of
/// them. So the frames of a group are after a call as they were before it.
///
/// This holds for every form `W` of what is left to do. The work must tell the functions and the
/// parts that its processor is in, with the words of the frame of each.
pub fn frames_are_as_told<W>()
    ensures { FramesAreAsTold W }
{}

/// Each frame lies in the space of its group, after the header and before the free words. So the
/// address of a word of a frame of the running call may be used without a check, also by a
/// multiprefix.
pub fn frames_lie_in_spaces()
    ensures { FramesLieInSpaces }
{}

/// In every run of a flat list each processor has the nests that its position tells, if these go
/// with the operations: each index has those of its call, and every operation leads on to those
/// that it makes of them. The address of each word of the frames of its call may be used there.
pub fn lists_tell_frames()
    ensures { ListsTellFrames }
{}
