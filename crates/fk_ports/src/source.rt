//! Sources of bytes.
ghost use Rattle.std.specs.Prelude.{◌≡◌, ◌<◌, ◌≤◌, ◌↔◌, ℕ, List, [], Option, IfOk, IfSome, IsErrOf};
ghost use Rattle.std.specs.Prelude.{OnErr, OnOk, length, take};
ghost use Rattle.std.specs.Io.KnownBytes.{prepend_known};
ghost use Rattle.fk_ports.specs.Faults.{HasRisen};
ghost use Rattle.fk_ports.specs.Known.{GivesAtMost, MovesFirst};

use crate::faults::{Failed, StoreFault};
use std::alloc::Global;

/// A source of bytes, such as standard input.
///
/// It counts its faults. The count never falls: a fault raises it, or finds it at its greatest
/// value, 2^64 - 1.
pub trait Source {
    /// The number of faults so far.
    ghost faults: { Self → ℕ };

    /// The bytes that are left, if they are known.
    ghost left: { Self → Option (List ℕ) };

    /// Moves the first bytes that are left to the front of `into`, and gives how many. There are
    /// none exactly if nothing is left. It fails only by a fault, which is counted, and then takes
    /// none. What `into` has then is unspecified, because a reader of the system may have written
    /// there before it failed.
    fn take(&mut self, into: &mut [u8]) -> Result<usize, Failed>
        requires { 0 < length into.old }
        ensures room { IfOk result (λ n. n ≤ length into.new) }

        // What was left is what was written, followed by what is left now.
        ensures moved { IfOk result
            (λ n. left self.old ≡ prepend_known (take n into.new) (left self.new)) }
        ensures end { IfOk result (λ n. IfSome (left self.old) (λ bytes. (n ≡ 0) ↔ (bytes ≡ []))) }
        ensures refused { OnErr result (left self.new ≡ left self.old) }

        ensures fault { OnErr result (HasRisen (faults self.old) (faults self.new)) }
        ensures steady { OnOk result (faults self.new ≡ faults self.old) }
        ensures never_falls { faults self.old ≤ faults self.new };
}

/// Reads to the end of a source, or until `most` bytes were taken, whichever comes first.
///
/// It fails with `Fault` only if the source fails. After an error some bytes from the front of the
/// source may be lost.
pub fn take_all<S: Source>(
    alloc: Global,
    source: &mut S,
    most: usize,
) -> Result<Vec<u8>, StoreFault>
    ensures bytes { IfOk result
        (λ bytes. IfSome (S.left source.old) (λ left. bytes.items ≡ take most left)) }
    ensures left { IfOk result
        (λ bytes. S.left source.old ≡ prepend_known bytes.items (S.left source.new)) }
    ensures at_most { IfOk result (λ bytes. length bytes.items ≤ most) }
    ensures refused { OnErr result (GivesAtMost most (S.left source.old) (S.left source.new)) }

    ensures fault { IsErrOf result StoreFault.Fault
        → HasRisen (S.faults source.old) (S.faults source.new) }
    ensures memory { IsErrOf result StoreFault.Memory → S.faults source.new ≡ S.faults source.old }
    ensures steady { OnOk result (S.faults source.new ≡ S.faults source.old) }
    ensures never_falls { S.faults source.old ≤ S.faults source.new }
{
    let mut bytes = Vec::new(alloc);
    append_all(source, most, &mut bytes)?;
    Ok(bytes)
}

/// Reads as `take_all` does, and appends what it reads. After a refusal `into` is as it was.
pub(crate) fn append_or_keep<S: Source>(
    source: &mut S,
    most: usize,
    into: &mut Vec<u8>,
) -> Result<(), StoreFault>
    ensures moved { OnOk result
        (MovesFirst most (S.left source.old) (S.left source.new) into.old.items into.new.items) }
    ensures kept { OnErr result (into.new.items ≡ into.old.items) }
{
    let start = into.len();
    let result = append_all(source, most, into);
    if result.is_err() {
        into.truncate(start);
    }
    result
}

/// Reads as `take_all` does, and appends what it reads.
pub(crate) fn append_all<S: Source>(
    source: &mut S,
    most: usize,
    into: &mut Vec<u8>,
) -> Result<(), StoreFault>
    ensures moved { OnOk result
        (MovesFirst most (S.left source.old) (S.left source.new) into.old.items into.new.items) }
    ensures refused { OnErr result (GivesAtMost most (S.left source.old) (S.left source.new)) }
    ensures front { take (length into.old.items) into.new.items ≡ into.old.items }

    ensures fault { IsErrOf result StoreFault.Fault
        → HasRisen (S.faults source.old) (S.faults source.new) }
    ensures memory { IsErrOf result StoreFault.Memory → S.faults source.new ≡ S.faults source.old }
    ensures steady { OnOk result (S.faults source.new ≡ S.faults source.old) }
    ensures never_falls { S.faults source.old ≤ S.faults source.new }
{
    let mut piece = [0; 4096];
    let mut missing = most;
    while missing > 0 {
        let room = piece.len().min(missing);
        let count = source.take(&mut piece[..room])?;
        if count == 0 {
            return Ok(());
        }
        into.extend_from_slice(&piece[..count])?;
        missing -= count;
    }
    Ok(())
}
