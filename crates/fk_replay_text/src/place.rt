//! The order of the lines of a trace.

ghost use Rattle.std.specs.Prelude.{◌≡◌, ◌↔◌, IsTrue};
ghost use Rattle.fk_replay_text.specs.ColumnView.{column_of};
ghost use Rattle.fk_replay_text.specs.Trace.{Follows, rank};

use crate::column::Column;

/// The place of a line: its cycle, and its rank among the lines of that cycle.
#[derive(Clone, Copy)]
pub(crate) struct Place {
    pub(crate) cycle: u32,
    pub(crate) rank: u32,
}

impl Place {
    /// The place before the first line.
    pub(crate) const BEGINNING: Place = Place { cycle: 0, rank: 0 };

    /// The place of the line of a column in this cycle.
    pub(crate) fn of(column: Column, cycle: u32) -> Place
        ensures cycle { result.cycle ≡ cycle }
        ensures rank { result.rank ≡ rank (column_of column) }
    {
        let rank = match column {
            Column::Counts => 0,
            Column::Of(event) => event.number(),
        };
        Place { cycle, rank }
    }

    /// Whether the line of a column in this cycle may come next.
    pub(crate) fn is_before(self, column: Column, cycle: u32) -> bool
        ensures { IsTrue result ↔ Follows self.cycle self.rank (column_of column) cycle }
    {
        match column {
            Column::Counts => self.cycle < cycle,
            Column::Of(event) => cycle == self.cycle && self.rank < event.number(),
        }
    }
}
