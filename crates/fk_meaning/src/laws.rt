//! Laws of the definitions, and of parts and bodies. The laws of rounds hold for every form `W` of
//! what is left to do.

ghost use Rattle.fk_meaning.specs.Alike.{FormsRunAlike};
ghost use Rattle.fk_meaning.specs.Touch.{RequestsGoInTurn, GroupStep};
ghost use Rattle.fk_meaning.specs.Stopping.{StoppedRoundsFault};
ghost use Rattle.fk_meaning.specs.Told.{ListsTellMembers};
ghost use Rattle.fk_meaning.specs.Sites.{SitesHaveTheirKinds};
ghost use Rattle.fk_meaning.specs.Shaped.{PartsEndWhereOthersWait, ProgramsAreNested};

/// Runs don't depend on the form of what is left to do. Suppose that work of one form and work of
/// another are related so that both have the same next operation at the same site, and are related
/// again on either branch. Then the same schedules are lawful for both, and leave the same store
/// and status.
pub fn forms_run_alike<V, W>()
    ensures { FormsRunAlike V W }
{}

/// In a round without a fault the processors that access a word of shared data do so in ascending
/// order. Each gets the word as the lower ones have left it.
pub fn requests_go_in_turn<W>()
    ensures { RequestsGoInTurn W }
{}

/// Take a round in which only members of one group in lockstep access a word, all of them by one
/// operation. Reads answer the former word. Writes leave the value of the highest writer. Each
/// multiprefix answers the former word combined with the values of the lower members in ascending
/// order.
pub fn group_step<W>()
    ensures { GroupStep W }
{}

/// A stopped round ends the run with the first fault of the whole round from which it was cut.
pub fn stopped_rounds_fault<W>()
    ensures { StoppedRoundsFault W }
{}

/// A split has the same result whether a list gives the part of each member, in the order of the
/// members, or a function gives it for each processor. So has a shrink, for whether each member
/// stays.
pub fn lists_tell_members()
    ensures { ListsTellMembers }
{}

/// At every point of a run of a program, the site of a processor's next operation has the kind of
/// that operation in the list of the text's sites.
pub fn sites_have_their_kinds()
    ensures { SitesHaveTheirKinds }
{}

/// In the code of a program the ends of parts, the bodies of `farm` and `seq`, and the tests of
/// loops are nested as in the text, and nothing in between leads out of them.
///
/// This holds if no `break`, `continue` or `return` leads out of a part or a body, and calls have
/// their arguments.
pub fn programs_are_nested()
    ensures { ProgramsAreNested }
{}

/// At every point of a run of such code, a processor at the end of a part has the same work left as
/// the processors that waited for it. A processor at the end of a `farm` or `seq` has the same work
/// left as all its members have there.
pub fn parts_end_where_others_wait()
    ensures { PartsEndWhereOthersWait }
{}
