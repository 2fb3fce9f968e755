//! The status of a call.

/// The status of a call. Its code is the exit status of the process.
#[derive(Clone, Copy, PartialEq, Eq, Debug)]
pub enum Status {
    /// The command did what it should, and a machine that ran finished.
    Done,
    /// The source is refused.
    Refused,
    /// The words are no command.
    Usage,
    /// A file could not be read.
    ReadFault,
    /// A file could not be put, or a sink failed.
    WriteFault,
    /// There wasn't enough memory.
    Memory,
    /// The program faulted.
    SourceFault,
    /// The bound on the cycles was reached.
    CycleBound,
    /// The machine trapped.
    Trap,
    /// The image is refused.
    ImageRefused,
    /// The input is refused.
    InputRefused,
    /// The trace is refused.
    TraceRefused,
    /// The ELF file is refused.
    ElfRefused,
}

impl Status {
    ghost use Rattle.std.specs.Prelude.{◌≡◌};
    ghost use Rattle.fk_top.specs.Status.{code_of};

    /// The exit status: 0 to 12 in the order above.
    pub fn code(&self) -> u8
        ensures { result ≡ code_of self.now }
    {
        match *self {
            Status::Done => 0,
            Status::Refused => 1,
            Status::Usage => 2,
            Status::ReadFault => 3,
            Status::WriteFault => 4,
            Status::Memory => 5,
            Status::SourceFault => 6,
            Status::CycleBound => 7,
            Status::Trap => 8,
            Status::ImageRefused => 9,
            Status::InputRefused => 10,
            Status::TraceRefused => 11,
            Status::ElfRefused => 12,
        }
    }
}
