//! Laws of depths, of knowledge of addresses, and of the flat lists of well typed code.

ghost use Rattle.fk_core_typing.specs.LocalDepths.{LocalDepthsAreDepths};
ghost use Rattle.fk_core_typing.specs.LocalAddresses.{KnowledgeIsEnough};
ghost use Rattle.fk_core_typing.specs.Laws.{TypedListsLeadWithin, TypedListsKnow};
ghost use Rattle.fk_core_typing.specs.Laws.{TypedListsHaveDepths};

/// Where each operation of a list and those that follow it have depths that go with what it takes
/// and pushes, a processor that is about to do an operation has as many values as its depth says,
/// in every run.
pub fn local_depths_are_depths()
    ensures { LocalDepthsAreDepths }
{}

/// In every run of a list that has knowledge of addresses, and whose indices tell the group frames
/// of their calls, a processor that is about to do an operation may do it, if the words for groups
/// are a space. An address of a word of a group frame needs no check.
pub fn knowledge_is_enough()
    ensures { KnowledgeIsEnough }
{}

/// A flat list of well typed functions leads on within itself: its jumps lead to operations, and
/// every operation that isn't an end goes on inside it.
pub fn typed_lists_lead_within()
    ensures { TypedListsLeadWithin }
{}

/// A flat list of well typed functions has knowledge of each address that it uses, with nothing
/// known where `main` begins. Its indices tell the group frames of their calls, if `main` has none.
pub fn typed_lists_know()
    ensures { TypedListsKnow }
{}

/// Where the depths of a flat list of well typed functions are those counted along the code, they
/// go with the operations, and `main` begins without values.
pub fn typed_lists_have_depths()
    ensures { TypedListsHaveDepths }
{}
