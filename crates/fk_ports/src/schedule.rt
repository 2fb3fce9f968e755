//! The calls of an object in memory that fail.
ghost use Rattle.std.specs.Prelude.{◌≡◌};
ghost use Rattle.fk_ports.specs.InMemory.{counted, is_to_fail, no_calls};

use std::marker::Model;

/// The count of the calls of an object in memory, and the numbers of those that fail.
#[derive(Drop)]
pub(crate) struct Schedule {
    made: u64,
    fails: Vec<u64>,
}

impl Model for Schedule {
    ghost use Rattle.fk_ports.specs.InMemory.{Calls};

    ghost Value = { Calls };

    ghost view = { λ s. record { made = s.made; fails = s.fails.items } };
}

impl Schedule {
    pub(crate) fn new(fails: Vec<u64>) -> Schedule
        ensures { result ≡ no_calls fails.items }
    {
        Schedule { made: 0, fails }
    }

    /// Counts a call, and gives whether it fails.
    pub(crate) fn next_fails(&mut self) -> bool
        ensures fails { result ≡ is_to_fail self.old }
        ensures counted { self.new ≡ counted self.old }
    {
        let number = u128::from(self.made) + 1;
        self.made = self.made.saturating_add(1);
        self.fails.iter().any(|fails| u128::from(*fails) == number)
    }
}
