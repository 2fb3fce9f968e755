//! Kinds of faults and of traps.

/// The kind of a program's fault.
#[derive(Clone, Copy, PartialEq, Eq, Debug)]
pub enum FaultKind {
    /// A check met an address that is neither in shared data nor in a private heap.
    BadAddress,
    /// Too many calls would wait.
    CallDepth,
    /// A group's space was used up.
    GroupSpace,
    /// The operation has no fault of its own, or there is no such operation.
    Other,
}

impl FaultKind {
    ghost use Rattle.std.specs.Prelude.{◌≡◌, ◌≤◌, length};
    ghost use Rattle.fk_top.specs.Report.{fault_kind, fault_name};

    /// The fault of an operation, by the kind of its site.
    pub fn of_site(kind: u32) -> FaultKind
        ensures { result ≡ fault_kind kind }
    {
        match kind {
            12 => FaultKind::BadAddress,
            22 => FaultKind::CallDepth,
            25 | 27 => FaultKind::GroupSpace,
            _ => FaultKind::Other,
        }
    }

    /// The name of the fault in a report.
    pub fn name(self) -> &'static [u8]
        ensures name { result.now ≡ fault_name self }
        ensures short { length result.now ≤ 10 }
    {
        match self {
            FaultKind::BadAddress => b"BadAddress",
            FaultKind::CallDepth => b"CallDepth",
            FaultKind::GroupSpace => b"GroupSpace",
            FaultKind::Other => b"Fault",
        }
    }
}

/// The kind of a machine's trap (RISC-V Unprivileged ISA, "Exceptions, Traps, and Interrupts").
#[derive(Clone, Copy, PartialEq, Eq, Debug)]
pub enum TrapKind {
    /// The pc is outside the code.
    Fetch,
    /// The word is no instruction.
    Unknown,
    /// An access whose address isn't aligned to its size, or a jump to an address that is no
    /// multiple of 4.
    Misaligned,
    /// An address outside the map, or an access that a device doesn't take.
    Access,
    /// The instruction `ecall`.
    Ecall,
    /// The instruction `ebreak`.
    Ebreak,
}

impl TrapKind {
    ghost use Rattle.std.specs.Prelude.{◌≡◌, ◌≤◌, length};
    ghost use Rattle.fk_top.specs.Report.{trap_kind, trap_name};

    /// The trap with this number: 1 to 6 in the order above.
    pub fn of_number(number: u8) -> TrapKind
        ensures { result ≡ trap_kind number }
    {
        match number {
            1 => TrapKind::Fetch,
            2 => TrapKind::Unknown,
            3 => TrapKind::Misaligned,
            4 => TrapKind::Access,
            5 => TrapKind::Ecall,
            _ => TrapKind::Ebreak,
        }
    }

    /// The name of the trap in a report.
    pub fn name(self) -> &'static [u8]
        ensures name { result.now ≡ trap_name self }
        ensures short { length result.now ≤ 10 }
    {
        match self {
            TrapKind::Fetch => b"Fetch",
            TrapKind::Unknown => b"Unknown",
            TrapKind::Misaligned => b"Misaligned",
            TrapKind::Access => b"Access",
            TrapKind::Ecall => b"Ecall",
            TrapKind::Ebreak => b"Ebreak",
        }
    }
}
