//! A mark for each name.

ghost use Rattle.std.specs.Prelude.{◌≡◌, ◌≢◌, ℕ, List, Option, Some, None, OnOk, IfOk, IsNone};
ghost use Rattle.std.specs.Prelude.{IfSome};

use indexmap::IndexMap;
use std::alloc::{AllocError, Global};

/// The index of a mark for each of some names.
#[derive(Drop)]
pub struct Table<'a> {
    marks: IndexMap<&'a [u8], usize>,
}

impl<'a> Table<'a> {
    ghost use Rattle.fk_types_names.specs.TableView.{shown, first_set};

    /// A table in which no name has a mark.
    pub fn new(alloc: Global) -> Self
        ensures { (name : List ℕ) → shown result name ≡ None }
    {
        Table {
            marks: IndexMap::new(alloc),
        }
    }

    /// A table in which no name has a mark, with room for some names.
    pub(crate) fn with_room(alloc: Global, room: usize) -> Result<Self, AllocError>
        ensures { IfOk result (λ table. (name : List ℕ) → shown table name ≡ None) }
    {
        Ok(Table {
            marks: IndexMap::with_capacity(alloc, room)?,
        })
    }

    /// The mark of a name.
    pub fn get(&self, name: &[u8]) -> Option<usize>
        ensures { result ≡ shown self.now name.now }
    {
        self.marks.get(name).copied()
    }

    /// Gives a name another mark. Returns the mark that it had. It fails only if there isn't enough
    /// memory.
    pub(crate) fn replace(
        &mut self,
        name: &'a [u8],
        mark: usize,
    ) -> Result<Option<usize>, AllocError>
        ensures old { IfOk result (λ old. old ≡ shown self.old name.now) }
        ensures same { OnOk result (shown self.new name.now ≡ Some mark) }
        ensures others { OnOk result
            ((other : List ℕ) → other ≢ name.now → shown self.new other ≡ shown self.old other) }
    {
        Ok(self.marks.insert(name, mark)?)
    }

    /// Gives a name another mark, or none. It fails only if there isn't enough memory.
    pub fn set(&mut self, name: &'a [u8], mark: Option<usize>) -> Result<(), AllocError>
        ensures same { OnOk result (shown self.new name.now ≡ mark) }
        ensures others { OnOk result
            ((other : List ℕ) → other ≢ name.now → shown self.new other ≡ shown self.old other) }
    {
        match mark {
            Some(mark) => {
                self.replace(name, mark)?;
            }
            None => {
                self.marks.swap_remove(name);
            }
        }
        Ok(())
    }

    /// Gives a name, if there is one, a mark unless it has one. It fails only if there isn't enough
    /// memory.
    pub fn set_first(&mut self, name: Option<&'a [u8]>, mark: usize) -> Result<(), AllocError>
        ensures some { OnOk result (IfSome name.entry (λ n. (q : List ℕ)
            → shown self.new q ≡ first_set n.now mark q (shown self.old q))) }
        ensures none { OnOk result (IsNone name.entry
            → (q : List ℕ) → shown self.new q ≡ shown self.old q) }
    {
        let Some(name) = name else {
            return Ok(());
        };
        match self.replace(name, mark)? {
            Some(first) => {
                self.replace(name, first)?;
                Ok(())
            }
            None => Ok(()),
        }
    }
}
