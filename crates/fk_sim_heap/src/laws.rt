//! Laws of the count and the notes.

ghost use Rattle.fk_sim_heap.specs.Laws.{HeapsBeginUncounted, RequestsAreCounted};
ghost use Rattle.fk_sim_heap.specs.Laws.{RoundsAreCounted};

/// Before the first request the count is 0, and no hart has noted that the heap is full.
pub fn heaps_begin_uncounted()
    ensures { HeapsBeginUncounted }
{}

/// A request that is counted gets the block that the store's heap gives, or none where that has
/// none. The count and the notes show the heap's top after it, if they did before it. With at most
/// 1,024 harts the count never wraps: each passes the end of the heap at most once.
pub fn requests_are_counted()
    ensures { RequestsAreCounted }
{}

/// Harts that are counted one after another in a round, in ascending order, get what their
/// processors get of the store, each after those before it.
pub fn rounds_are_counted()
    ensures { RoundsAreCounted }
{}
