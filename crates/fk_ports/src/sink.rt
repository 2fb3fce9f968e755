//! Sinks of bytes.
ghost use Rattle.std.specs.Prelude.{◌≡◌, ◌<◌, ◌≤◌, ℕ, List, [], Option, IfOk, IsOk, OnErr, OnOk};
ghost use Rattle.std.specs.Prelude.{flat_map, length, take};
ghost use Rattle.std.specs.Io.KnownBytes.{append_known};
ghost use Rattle.fk_ports.specs.Faults.{HasRisen};
ghost use Rattle.fk_ports.specs.Known.{TakesPrefix};

use crate::faults::Failed;

/// A sink of bytes, such as standard output.
///
/// It counts its faults. The count never falls: a fault raises it, or finds it at its greatest
/// value, 2^64 - 1.
pub trait Sink {
    /// The number of faults so far.
    ghost faults: { Self → ℕ };

    /// The bytes that were taken, if they are known.
    ghost taken: { Self → Option (List ℕ) };

    /// Takes one or more bytes from the front of a piece, and gives how many. It fails only by a
    /// fault, which is counted, and then takes none.
    fn give(&mut self, bytes: &[u8]) -> Result<usize, Failed>
        requires { 0 < length bytes.now }
        ensures some { IfOk result (λ n. 0 < n) }
        ensures within { IfOk result (λ n. n ≤ length bytes.now) }
        ensures taken { IfOk result
            (λ n. taken self.new ≡ append_known (taken self.old) (take n bytes.now)) }
        ensures refused { OnErr result (taken self.new ≡ taken self.old) }

        ensures fault { OnErr result (HasRisen (faults self.old) (faults self.new)) }
        ensures steady { OnOk result (faults self.new ≡ faults self.old) }
        ensures never_falls { faults self.old ≤ faults self.new };
}

/// Gives all of a piece to a sink. If it fails, the sink took some bytes from the front of the
/// piece.
///
/// It takes no memory. An empty piece makes no call.
pub fn give_all<K: Sink>(sink: &mut K, bytes: &[u8]) -> Result<(), Failed>
    ensures all { OnOk result (K.taken sink.new ≡ append_known (K.taken sink.old) bytes.now) }
    ensures prefix { OnErr result (TakesPrefix (K.taken sink.old) (K.taken sink.new) bytes.now) }
    ensures empty { bytes.now ≡ [] → IsOk result × (sink.new ≡ sink.old) }

    ensures fault { OnErr result (HasRisen (K.faults sink.old) (K.faults sink.new)) }
    ensures steady { OnOk result (K.faults sink.new ≡ K.faults sink.old) }
    ensures never_falls { K.faults sink.old ≤ K.faults sink.new }
{
    let mut rest = bytes;
    while !rest.is_empty() {
        let count = sink.give(rest)?;
        rest = &rest[count..];
    }
    Ok(())
}

/// Gives pieces to a sink, one after another. If it fails, the sink took some bytes from the front
/// of what they are together.
///
/// It takes no memory. An empty piece makes no call.
pub fn give_pieces<K: Sink>(sink: &mut K, pieces: &[&[u8]]) -> Result<(), Failed>
    ensures all { OnOk result (K.taken sink.new ≡ append_known (K.taken sink.old)
        (flat_map (λ piece. piece.now) pieces.now)) }
    ensures prefix { OnErr result (TakesPrefix (K.taken sink.old) (K.taken sink.new)
        (flat_map (λ piece. piece.now) pieces.now)) }

    ensures fault { OnErr result (HasRisen (K.faults sink.old) (K.faults sink.new)) }
    ensures steady { OnOk result (K.faults sink.new ≡ K.faults sink.old) }
{
    for piece in pieces {
        give_all(sink, *piece)?;
    }
    Ok(())
}
