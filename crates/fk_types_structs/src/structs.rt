//! The structs of a text.

ghost use Rattle.std.specs.Prelude.{◌≡◌, ◌↔◌, ℕ, map, length, IsTrue, IfOk, IfSome, IsNone};
ghost use Rattle.fk_syntax.specs.View.{type_of as tree_of_type};
ghost use Rattle.fk_syntax.specs.ProgramView.{item_of};
ghost use Rattle.fk_types_structs.specs.Types.{structs_of, struct_named, type_spelled};
ghost use Rattle.fk_types_structs.specs.Types.{member_named, member_type};
ghost use Rattle.fk_types_structs.specs.Words.{capped};
ghost use Rattle.fk_types_structs.specs.View.{outline_tree};
ghost use Rattle.fk_types_structs.specs.Sizes.{HasTypeWords, HasOffset};
ghost use Rattle.fk_types_structs.specs.Whole.{structs_in, IsSound};

use crate::layout::{Layout, layouts};
use crate::names::{MOST, Places, place_of, struct_places};
use crate::outline::{Outline, outlines};
use crate::spelling::{all_types, spelled};
use crate::types::DataType;
use crate::words::{struct_words, type_words};
use fk_syntax::{Item, TypeName};
use std::alloc::{AllocError, Global};

/// The structs of a text in the order of their declarations, each identified by its index from 0.
#[derive(Drop)]
pub struct Structs<'p, 'a> {
    outlines: Vec<Outline<'p, 'a>>,
    places: Places<'a>,
    kinds: Vec<Vec<Option<DataType>>>,
    sizes: Vec<Option<u32>>,
    layouts: Vec<Layout<'a>>,
}

impl<'p, 'a> Structs<'p, 'a> {
    /// The structs that some items declare. It fails only if there isn't enough memory, which
    /// includes more structs than can be counted.
    pub fn new(alloc: Global, items: &'p [Item<'a>]) -> Result<Self, AllocError>
        ensures structs { IfOk result
            (λ kept. structs_in kept ≡ structs_of (map item_of items.now)) }
        ensures sound { IfOk result IsSound }
    {
        let outlines = outlines(alloc, items)?;
        if outlines.len() > MOST {
            return Err(AllocError);
        }
        let places = struct_places(alloc, &outlines)?;
        let kinds = all_types(alloc, &places, &outlines)?;
        let sizes = struct_words(alloc, &kinds)?;
        let layouts = layouts(alloc, &outlines, &kinds, &sizes)?;
        Ok(Structs {
            outlines,
            places,
            kinds,
            sizes,
            layouts,
        })
    }

    /// The number of structs.
    pub fn len(&self) -> usize
        ensures { result ≡ length (structs_in self.now) }
    {
        self.outlines.len()
    }

    /// Whether there are no structs.
    pub fn is_empty(&self) -> bool
        ensures { IsTrue result ↔ (length (structs_in self.now) ≡ 0) }
    {
        self.outlines.is_empty()
    }

    /// The declarations of the structs.
    pub fn outlines(&self) -> &[Outline<'p, 'a>]
        ensures { map outline_tree result.now ≡ structs_in self.now }
    {
        &self.outlines
    }

    /// The index of the struct with this name: the first one, if there are several.
    pub fn find(&self, name: &[u8]) -> Option<usize>
        requires { IsSound self.now }
        ensures { result ≡ struct_named (structs_in self.now) name.now }
    {
        place_of(&self.places, name)
    }

    /// The type that a base and stars spell, with the length of an array if it is one. There is
    /// none for an undeclared struct.
    pub fn type_of(&self, kind: &TypeName, length: Option<u32>) -> Option<DataType>
        requires { IsSound self.now }
        ensures { result ≡ type_spelled (structs_in self.now) (tree_of_type kind.now) length }
    {
        spelled(&self.places, kind, length)
    }

    /// The words of a type, at most one above the limit, and 0 for `void`. There is no number where
    /// it is a struct that holds itself, or where a part of it has none.
    pub fn words(&self, kind: &DataType) -> Option<u32>
        requires { IsSound self.now }
        ensures some { IfSome result
            (λ words. (exact : ℕ) × HasTypeWords (structs_in self.now) kind.now exact
            × (words ≡ capped exact)) }
        ensures none { IsNone result → (exact : ℕ)
            → ¬ HasTypeWords (structs_in self.now) kind.now exact }
    {
        type_words(&self.sizes, kind)
    }

    /// The position of a member in its struct, from 0: the first one, if there are several with the
    /// name.
    pub fn find_member(&self, index: usize, name: &[u8]) -> Option<usize>
        requires { IsSound self.now }
        ensures { result ≡ member_named (structs_in self.now) index name.now }
    {
        let layout = self.layouts.get(index)?;
        place_of(&layout.places, name)
    }

    /// The type of the member at a position. There is none for an undeclared struct.
    pub fn member_type(&self, index: usize, place: usize) -> Option<DataType>
        requires { IsSound self.now }
        ensures { result ≡ member_type (structs_in self.now) index place }
    {
        let kinds = self.kinds.get(index)?;
        kinds.get(place).copied().flatten()
    }

    /// The number of words before the member at a position, at most one above the limit. There is
    /// none if a member before it has none.
    pub fn offset(&self, index: usize, place: usize) -> Option<u32>
        requires { IsSound self.now }
        ensures some { IfSome result
            (λ words. (exact : ℕ) × HasOffset (structs_in self.now) index place exact
            × (words ≡ capped exact)) }
        ensures none { IsNone result → (exact : ℕ)
            → ¬ HasOffset (structs_in self.now) index place exact }
    {
        let layout = self.layouts.get(index)?;
        layout.offsets.get(place).copied().flatten()
    }
}
