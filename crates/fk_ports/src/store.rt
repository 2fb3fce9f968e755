//! Stores of files.
ghost use Rattle.std.specs.Prelude.{◌≡◌, ◌≤◌, ℕ, Option, IsErrOf, OnErr, OnOk};
ghost use Rattle.fk_ports.specs.Faults.{HasRisen};
ghost use Rattle.fk_ports.specs.Files.{AppendsAtMost, AppendsFile, FetchFaults, Files};
ghost use Rattle.fk_ports.specs.Files.{with_file_known};

use crate::faults::StoreFault;

/// A store of named files.
///
/// It counts its faults, those of `fetch` and those of `put` separately. A count never falls: a
/// fault raises it, or finds it at its greatest value, 2^64 - 1.
pub trait Store {
    /// The number of faults of `fetch` so far.
    ghost fetch_faults: { Self → ℕ };

    /// The number of faults of `put` so far.
    ghost put_faults: { Self → ℕ };

    /// The files, if they are known.
    ghost files: { Self → Option Files };

    /// Appends the first `most` bytes of the named file, or all of them if it has fewer.
    ///
    /// It fails with `Fault` if the store fails, which is counted, or if the files are known and
    /// none has the name, which isn't counted.
    fn fetch(&mut self, name: &str, most: usize, into: &mut Vec<u8>) -> Result<(), StoreFault>
        ensures appended { OnOk result
            (AppendsFile (files self.old) name.now most into.old.items into.new.items) }
        ensures at_most { OnOk result (AppendsAtMost most into.old.items into.new.items) }
        ensures refused { OnErr result (into.new.items ≡ into.old.items) }
        ensures files { files self.new ≡ files self.old }

        ensures fault { IsErrOf result StoreFault.Fault → FetchFaults (files self.old) name.now
            (fetch_faults self.old) (fetch_faults self.new) }
        ensures memory { IsErrOf result StoreFault.Memory
            → fetch_faults self.new ≡ fetch_faults self.old }
        ensures steady { OnOk result (fetch_faults self.new ≡ fetch_faults self.old) }
        ensures never_falls { fetch_faults self.old ≤ fetch_faults self.new }
        ensures other_count { put_faults self.new ≡ put_faults self.old };

    /// Makes these the bytes of the name, and leaves every other name as it was.
    ///
    /// It fails with `Fault` only if the store fails, which is counted.
    fn put(&mut self, name: &str, bytes: &[u8]) -> Result<(), StoreFault>
        ensures put { OnOk result
            (files self.new ≡ with_file_known (files self.old) name.now bytes.now) }
        ensures refused { OnErr result (files self.new ≡ files self.old) }

        ensures fault { IsErrOf result StoreFault.Fault
            → HasRisen (put_faults self.old) (put_faults self.new) }
        ensures memory { IsErrOf result StoreFault.Memory
            → put_faults self.new ≡ put_faults self.old }
        ensures steady { OnOk result (put_faults self.new ≡ put_faults self.old) }
        ensures never_falls { put_faults self.old ≤ put_faults self.new }
        ensures other_count { fetch_faults self.new ≡ fetch_faults self.old };
}
