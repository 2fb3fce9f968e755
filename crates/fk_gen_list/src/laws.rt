//! Laws of the code of a list.

ghost use Rattle.fk_gen_list.specs.Laws.{ListsDoAlone, LevelsNeedNoRoom, ListsHaveTheLaw};
ghost use Rattle.fk_gen_list.specs.Opening.{GroupsBegin};
ghost use Rattle.fk_gen_list.specs.Whole.{GeneratedCodeIsWhole, CodeHasTheLaw};

/// An image with the code that `fk_gen_list` makes of a list has, at its index, the block of each
/// operation that a processor does alone, of each jump and of each step of a group.
pub fn generated_code_is_whole()
    ensures { GeneratedCodeIsWhole }
{}

/// Where the block of each operation that a processor does alone is at its index, and the list
/// suits frames that have room for the levels around a processor, all these do what the law of
/// blocks of groups requires, in the cycles of `cycles_of`.
pub fn lists_do_alone()
    ensures { ListsDoAlone }
{}

/// A list that suits frames has room for the levels around a processor, where no group splits.
pub fn levels_need_no_room()
    ensures { LevelsNeedNoRoom }
{}

/// Where the blocks of steps of groups are at their indices too, and an opening leads each hart to
/// where `main` begins, the whole law of blocks of groups holds.
pub fn lists_have_the_law()
    ensures { ListsHaveTheLaw }
{}

/// From its start each hart comes to the block where `main` begins, in the root.
pub fn groups_begin()
    ensures { GroupsBegin }
{}

/// A list with room for all its levels has the whole law of blocks in an image with its opening,
/// its blocks and the code that they share.
pub fn code_has_the_law()
    ensures { CodeHasTheLaw }
{}
