//! Words that are touched twice in a cycle.

ghost use Rattle.std.specs.Prelude.{◌≡◌, ◌≢◌, ℕ, ◌<◌, ◌≤◌, ◌+◌, ◌^◌, ◌==◌, ◌&&◌, All};
ghost use Rattle.std.specs.Prelude.{if◌then◌else◌, length, slice_index, slice_set};
ghost use Rattle.fk_audit.specs.declared.access.AccessKind.TheVariants as kind;
ghost use Rattle.fk_audit.specs.Mark.{IsLeast, IsMark, counted, is_counted, lesser};

use crate::access::AccessKind;
use crate::least::{least_of, lesser};
use crate::touch::{Touch, is_served};
use fk_machine::Stand;

/// The least words that clash in a cycle, of each kind of clash.
#[derive(Clone, Copy)]
pub struct LeastWords {
    pub read: Option<u32>,
    pub write: Option<u32>,
}

// Whether a touch is of a kind, and its hart was served and didn't trap.
#[inline(always)]
fn is_counted(stand: Stand, kind: AccessKind, touch: Touch) -> bool
    ensures { result ≡ is_counted stand kind touch }
{
    is_served(stand, touch.hart) && kind.is_same(touch.kind)
}

// The lesser of a word and the least one so far, if the word has the mark of this cycle.
#[inline(always)]
fn least_marked(marks: &[u32], word: u32, cycle: u32, least: Option<u32>) -> Option<u32>
    requires { word < length marks.now }
    ensures { result ≡ (if slice_index marks.now word == cycle then lesser least word else least) }
{
    if marks[word as usize] == cycle {
        lesser(least, word)
    } else {
        least
    }
}

// Marks a word with the cycle, unless `other` has marked it. Gives the least word that was marked
// again.
#[inline(always)]
fn mark_word(
    other: &[u32],
    marks: &mut [u32],
    word: u32,
    cycle: u32,
    least: Option<u32>,
) -> Option<u32>
    requires other { word < length other.now }
    requires marks { word < length marks.old }
    ensures marks { marks.new ≡ (if slice_index other.now word == cycle
        then marks.old else slice_set marks.old word cycle) }
    ensures least { result ≡ (if slice_index other.now word == cycle then least
        else (if slice_index marks.old word == cycle then lesser least word else least)) }
{
    if other[word as usize] == cycle {
        return least;
    }
    let least = least_marked(marks, word, cycle, least);
    marks[word as usize] = cycle;
    least
}

// Marks with the cycle the words that touches of a kind touch, except for words that `other` has
// marked with it. Gives the least word that was touched twice.
fn mark(
    touches: &[Touch],
    stand: Stand,
    kind: AccessKind,
    cycle: u32,
    other: &[u32],
    marks: &mut [u32],
) -> Option<u32>
    requires within { All (λ t. t.word < 2 ^ 20) touches.now }
    requires other { length other.now ≡ 2 ^ 20 }
    requires sized { length marks.old ≡ 2 ^ 20 }
    requires earlier { (word : ℕ) → slice_index marks.old word < cycle }
    ensures marks { (word : ℕ) → slice_index other.now word ≢ cycle
        → IsMark cycle (counted stand kind touches.now word) (slice_index marks.new word) }
    ensures most { (word : ℕ) → slice_index marks.new word ≤ cycle }
    ensures least { IsLeast (λ word. (slice_index other.now word ≢ cycle)
        × (2 ≤ counted stand kind touches.now word)) result }
{
    let mut least = None;
    for touch in touches {
        if is_counted(stand, kind, *touch) {
            least = mark_word(other, marks, touch.word, cycle, least);
        }
    }
    least
}

// The least word that a touch reads and `written` has marked with the cycle.
fn least_shared(touches: &[Touch], stand: Stand, cycle: u32, written: &[u32]) -> Option<u32>
    requires within { All (λ t. t.word < 2 ^ 20) touches.now }
    requires sized { length written.now ≡ 2 ^ 20 }
    ensures { IsLeast (λ word. (slice_index written.now word ≡ cycle)
        × (1 ≤ counted stand kind.Read touches.now word)) result }
{
    let mut least = None;
    for touch in touches {
        if is_counted(stand, AccessKind::Read, *touch) {
            least = least_marked(written, touch.word, cycle, least);
        }
    }
    least
}

/// The least words that clash in a cycle with these touches, where `stand` is the machine's status
/// after it. Marks the words that are read and those that are written with the cycle.
pub fn least_words(
    touches: &[Touch],
    stand: Stand,
    cycle: u32,
    read: &mut [u32],
    written: &mut [u32],
) -> LeastWords
    requires within { All (λ t. t.word < 2 ^ 20) touches.now }
    requires read_sized { length read.old ≡ 2 ^ 20 }
    requires written_sized { length written.old ≡ 2 ^ 20 }
    requires read_earlier { (word : ℕ) → slice_index read.old word < cycle }
    requires written_earlier { (word : ℕ) → slice_index written.old word < cycle }
    ensures read { (word : ℕ) → slice_index read.new word ≤ cycle }
    ensures written { (word : ℕ) → slice_index written.new word ≤ cycle }
    ensures least_read { IsLeast (λ word. (2 ≤ counted stand kind.Read touches.now word)
        × (counted stand kind.Write touches.now word ≡ 0)) result.read }
    ensures least_write { IsLeast (λ word. (2 ≤ counted stand kind.Read touches.now word
        + counted stand kind.Write touches.now word)
        × (1 ≤ counted stand kind.Write touches.now word)) result.write }
{
    let twice = mark(touches, stand, AccessKind::Write, cycle, read, written);
    let shared = least_shared(touches, stand, cycle, written);
    LeastWords {
        read: mark(touches, stand, AccessKind::Read, cycle, written, read),
        write: least_of(twice, shared),
    }
}
