//! Laws of lists that can be replayed.

ghost use Rattle.fk_replay_lists.specs.Lists.{ListsAreSafe, ListsCanBeReplayed};

/// In every run of a list whose operations may always be done, and whose indices tell the group
/// frames of their calls, each address that a request uses may be used, and each call that ends can
/// give back its frames. The globals and the input have room in one half of shared data.
pub fn lists_are_safe()
    ensures { ListsAreSafe }
{}

/// The flat list of a program that keeps all rules and has a layout can be replayed: in every run
/// its processors stay in the tree of groups, and are safe.
pub fn lists_can_be_replayed()
    ensures { ListsCanBeReplayed }
{}
