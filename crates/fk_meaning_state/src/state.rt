//! The state of a run.

ghost use Rattle.std.specs.Prelude.{◌≡◌, ◌+◌, ◌^◌, ◌≤◌, length, slice_index, IfOk};
ghost use Rattle.std.specs.Borrow.{sem};
ghost use Rattle.fk_meaning_store.specs.View.{processors_of};
ghost use Rattle.fk_meaning.specs.Schedule as run;
ghost use Rattle.fk_meaning.specs.Next.{Work};
ghost use Rattle.fk_meaning_state.specs.View.{state_of, store_in, tree_in, processors_in};
ghost use Rattle.fk_meaning_state.specs.Lending.{LendsStore};

use crate::processor::{Processor, beginners};
use crate::setting::Setting;
use fk_meaning_store::Store32;
use fk_tree::Tree;
use std::alloc::{AllocError, Global};

/// The state of a run that hasn't faulted: the store, the tree of groups, and the processors. The
/// work that the processors have left is kept elsewhere; before the first round each of them has
/// the whole `main` left.
#[derive(Drop)]
pub struct State {
    store: Store32,
    tree: Tree,
    processors: Vec<Processor>,
}

impl State {
    /// The state before the first round: `p` processors at the beginning, with the initial values
    /// of shared data and of the private variables of file scope, and the input numbers.
    pub(crate) fn first(
        alloc: Global,
        words: &[u32],
        firsts: &[u32],
        input: &[u32],
        p: u32,
    ) -> Result<State, AllocError>
        requires words { length words.now + length input.now ≤ 2 ^ 19 }
        requires some { 1 ≤ p }
        requires few { p ≤ 1024 }
        // This holds for whatever work all of them have left.
        ensures opening { IfOk result (λ state. (left : Work) → state_of left state
            ≡ run.opening p words.now input.now (slice_index firsts.now) left) }
        ensures processors { IfOk result (λ state. processors_of (store_in state) ≡ p) }
    {
        let setting = Setting {
            processors: p,
            globals: words.len() as u32,
            inputs: input.len() as u32,
        };
        let store = Store32::new(alloc, words, input, p)?;
        let tree = Tree::root(alloc, p)?;
        let processors = beginners(alloc, setting, firsts)?;
        Ok(State {
            store,
            tree,
            processors,
        })
    }

    /// The store that all processors share. Changes made through it change only the store.
    pub fn store(&mut self) -> &mut Store32
        ensures* writes_back { sem 𝓛 (LendsStore self.entry result) }
        ensures value { result.now ≡ store_in self.old }
    {
        &mut self.store
    }

    /// The tree of groups.
    pub fn tree(&self) -> &Tree
        ensures { result.now ≡ tree_in self.now }
    {
        &self.tree
    }

    /// The processors, in the order of their numbers.
    pub fn processors(&self) -> &[Processor]
        ensures { result.now ≡ processors_in self.now }
    {
        &self.processors
    }
}
