//! Laws of locks of tickets. The words wrap at 2^32, and there are fewer processors than that.

ghost use Rattle.fk_tickets.specs.Lock.{Excludes, FirstDrawnEntersFirst};

/// At each moment at most one processor is inside.
pub fn one_at_most_is_inside()
    ensures { Excludes }
{}

/// Of two draws, the one that was served first enters first, where both enter.
pub fn first_drawn_enters_first()
    ensures { FirstDrawnEntersFirst }
{}
