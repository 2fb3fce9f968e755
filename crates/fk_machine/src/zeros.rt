//! Memories of zeros.

ghost use Rattle.std.specs.Prelude.{◌≡◌, ℕ, vec_len, slice_index, IfOk};

use std::alloc::{AllocError, Global};

// A list of `count` zeros. The clauses don't name the list, because it would be computed where the
// number is known.
#[tactic(auto, using(crate::proofs::IndexZeros::index_zeros))]
pub fn zeros(alloc: Global, count: usize) -> Result<Vec<u32>, AllocError>
    ensures len { IfOk result (λ v. vec_len v ≡ count) }
    ensures zero { IfOk result (λ v. (i : ℕ) → slice_index v.items i ≡ 0) }
{
    vec![in alloc; 0; count]
}
