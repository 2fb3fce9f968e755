//! The text of the lock, alone and before another text.

ghost use Rattle.std.specs.Prelude.{◌≡◌, ◌++◌, length, IfOk};
ghost use Rattle.arrayvec.specs.ArrayVec.{array_vec_len};
ghost use Rattle.fk_locks_tokens.specs.Text.{lock_bytes};

use arrayvec::ArrayVec;
use std::alloc::{AllocError, Global};

/// The lines of the lock.
const LOCK: &[u8] = b"struct FairLock { unsigned next; unsigned now; };
void fair_take(struct FairLock *l) { pr unsigned t = mpadd(&l->next, 1); while (l->now != t) ; }
void fair_give(struct FairLock *l) { mpadd(&l->now, 1); }
";

/// The text of the lock: a struct, and the functions that take and give a lock.
pub fn lock_text() -> ArrayVec<u8, 256>
    ensures text { result.items ≡ lock_bytes }
    ensures long { array_vec_len result ≡ 205 }
{
    let mut text = ArrayVec::new();
    let _ = text.try_extend_from_slice(LOCK);
    text
}

/// The text of the lock, and after it a text that uses it. Fails if there isn't enough memory.
pub fn with_lock(alloc: Global, user: &[u8]) -> Result<Vec<u8>, AllocError>
    ensures { IfOk result (λ text. text.items ≡ lock_bytes ++ user.now) }
{
    let mut text = Vec::new(alloc);
    text.extend_from_slice(LOCK)?;
    text.extend_from_slice(user)?;
    Ok(text)
}
