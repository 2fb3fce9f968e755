//! What the words of code commit.

ghost use Rattle.std.specs.Prelude.{◌≡◌, [], All, IfOk, vec_len};
ghost use Rattle.fk_image.specs.Limits.{IsCommit};
ghost use Rattle.fk_machine.specs.Commit.{commits_of};
ghost use Rattle.fk_machine.specs.View.{entry_at};

use std::alloc::{AllocError, Global};

/// For each word of code what it commits, if it does: the count of operations, and the event.
pub type CommitTable = Vec<Option<(u32, u32)>>;

// A table of so many words that commit nothing.
#[tactic(auto, using(crate::proofs::Table::none_committed))]
fn empty_table(alloc: Global, code_words: usize) -> Result<CommitTable, AllocError>
    ensures len { IfOk result (λ table. vec_len table ≡ code_words) }
    ensures none { IfOk result (λ table. entry_at table.items ≡ commits_of []) }
{
    vec![in alloc; None; code_words]
}

/// The commits of `code_words` words of code, of which these are the entries. It puts the last
/// entry first, so that the first of several entries for a word would stay. Fails if there isn't
/// enough memory.
pub fn commit_table(
    alloc: Global,
    code_words: usize,
    entries: &[(u32, u32)],
) -> Result<CommitTable, AllocError>
    requires { All (IsCommit code_words) entries.now }
    ensures { IfOk result (λ table. entry_at table.items ≡ commits_of entries.now) }
{
    let mut table = empty_table(alloc, code_words)?;
    let mut left = entries.len();
    while left > 0 {
        left -= 1;
        let (address, word) = entries[left];
        table[(address / 4) as usize] = Some((word % 256, word / 256));
    }
    Ok(table)
}
