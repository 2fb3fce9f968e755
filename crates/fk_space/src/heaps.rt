//! A heap that only grows.

ghost use Rattle.std.specs.Prelude.{◌≡◌, ◌≤◌};
ghost use Rattle.fk_space.specs.Space.{heap as heap_after};

/// Takes a block of `words` words from a heap whose next word is `top` and whose words end at
/// `limit`. Returns the new top, and the block's first word. If the block doesn't fit, there is
/// none, and the heap is full from then on.
pub fn heap(top: u32, limit: u32, words: u32) -> (u32, Option<u32>)
    requires { top ≤ limit }
    ensures { result ≡ heap_after top limit words }
{
    if words <= limit - top {
        (top + words, Some(top))
    } else {
        (limit, None)
    }
}
