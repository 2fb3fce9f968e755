//! The status of a machine, and the causes of traps.

/// The status of a machine.
#[derive(Clone, Copy, PartialEq, Eq, Debug)]
pub enum Stand {
    /// Some hart has not ended.
    Running,
    /// All harts have ended.
    Finished,
    /// A hart stored a site to the fault device: the site and the hart.
    Faulted(u32, u32),
    /// A hart trapped: the hart, its pc and the number of the trap.
    Trapped(u32, u32, u8),
}

/// The pc is outside the code.
pub const FETCH: u8 = 1;
/// The word is no instruction of the table.
pub const UNKNOWN: u8 = 2;
/// An access whose address isn't aligned to its size, or a taken jump or branch to an address that
/// is no multiple of 4.
pub const MISALIGNED: u8 = 3;
/// An address outside the map, an access to code as data, or one that a device doesn't take.
pub const ACCESS: u8 = 4;
/// `ecall`.
pub const ECALL: u8 = 5;
/// `ebreak`.
pub const EBREAK: u8 = 6;

impl Stand {
    ghost use Rattle.std.specs.Prelude.{◌≡◌};
    ghost use Rattle.fk_machine.specs.declared.stand.Stand.TheVariants.{Running};

    // Changes the status from `Running`. Nothing is written if the next status is `Running` again.
    #[inline(always)]
    pub(crate) fn change_to(&mut self, next: Stand)
        requires { self.old ≡ Running }
        ensures { self.new ≡ next }
    {
        if next != Stand::Running {
            *self = next;
        }
    }
}
