//! The law of the fair lock.

ghost use Rattle.fk_locks.specs.Laws.{TextsExclude};

use fk_check_laws::laws::correct_programs_fit;
use fk_locks_calls::laws::programs_exclude;
use fk_locks_text::laws::{texts_are_correct, texts_have_locks};
use fk_parse_laws::laws::texts_are_trim;

/// Take a valid text that begins with the text of the lock, an input, a number of processors up to
/// 1,024 and a schedule of possible rounds. If the run uses a lock fairly, at most one processor is
/// inside at each moment, and of two draws the one that was served first enters first, where both
/// enter. Numbers wrap.
pub fn one_inside()
    ensures { TextsExclude }
{
    // These calls are facts for the proof, and do nothing.
    texts_have_locks();
    texts_are_correct();
    programs_exclude();
    correct_programs_fit();
    texts_are_trim();
}
