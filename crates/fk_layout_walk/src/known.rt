//! What a walk looks up about a program: its names, types and places.

ghost use Rattle.std.specs.Prelude.{◌≡◌, ◌+◌, ◌*◌, slice_get, is_some};
ghost use Rattle.fk_meaning_forms.specs.Tables as t;
ghost use Rattle.std.specs.Option.{option_map};
ghost use Rattle.fk_syntax.specs.ProgramView.{function_of};
ghost use Rattle.fk_layout_walk.specs.Known.{tables_of, items_in, called, framed_in};
ghost use Rattle.fk_layout_walk.specs.Shown.{as_word};

use fk_meaning_forms::{Home, Region, Slot, kind_of, note_of};
use fk_syntax::{Function, Item, Kind, Note};

/// The binding of every predeclared name.
pub(crate) const PREDECLARED: u32 = u32::MAX;

/// The group frames of the two parts of a token; `None` for a part without one.
#[derive(Clone, Copy)]
pub struct Framed {
    pub first: Option<Region>,
    /// The group frame of the second part, that of an `else`.
    pub second: Option<Region>,
}

/// The tables of a program that a walk reads.
#[derive(Drop)]
pub struct ProgramTables<'p, 't> {
    /// A note for each token.
    pub notes: &'p [Note],
    /// The types.
    pub kinds: &'p [Kind],
    /// A slot for each declaration.
    pub slots: &'p [Slot],
    /// The group frames that have words.
    pub regions: &'p [Region],
    /// The items of the text.
    pub items: &'p [Item<'t>],
    /// For each binding of a function, its index in `items`.
    pub callees: &'p [Option<usize>],
    /// The group frames of each token.
    pub framed: &'p [Framed],
}

const NO_SLOT: Slot = Slot {
    home: Home::NoWord,
    index: 0,
};

const NO_REGION: Region = Region {
    at: 0,
    part: 0,
    level: 0,
    words: 0,
};

impl<'p, 't> ProgramTables<'p, 't> {
    /// The note of a token.
    pub fn note(&self, at: u32) -> Note
        ensures { result ≡ t.note (tables_of self.now) at }
    {
        note_of(self.notes, at)
    }

    /// The type in the note of a token.
    pub(crate) fn kind_at(&self, at: u32) -> Kind
        ensures { result ≡ t.kind_at (tables_of self.now) at }
    {
        kind_of(self.notes, self.kinds, at)
    }

    /// Whether the type of a token is an array.
    pub(crate) fn is_array(&self, at: u32) -> bool
        ensures { result ≡ t.is_array (tables_of self.now) at }
    {
        self.kind_at(at).array
    }

    /// Whether the type of a token is `void`, with no words.
    pub(crate) fn is_void(&self, at: u32) -> bool
        ensures { result ≡ t.is_void (tables_of self.now) at }
    {
        self.kind_at(at).words == 0
    }

    /// Whether the numbers of the type of a token are unsigned. Those of an array are.
    pub(crate) fn is_unsigned(&self, at: u32) -> bool
        ensures { result ≡ t.is_unsigned (tables_of self.now) at }
    {
        let kind = self.kind_at(at);
        kind.unsigned || kind.array
    }

    /// The size of the type of a token in bytes, with four in a word; at most 2^32 - 1.
    pub(crate) fn bytes_at(&self, at: u32) -> u32
        ensures { result ≡ as_word (4 * (t.kind_at (tables_of self.now) at).words) }
    {
        self.kind_at(at).words.saturating_mul(4)
    }

    /// The offset of a member in its struct in bytes; at most 2^32 - 1.
    pub(crate) fn bytes_before(&self, member: u32) -> u32
        ensures { result ≡ as_word (4 * (t.note (tables_of self.now) member).binding) }
    {
        self.note(member).binding.saturating_mul(4)
    }

    /// The slot of a declaration.
    pub(crate) fn slot(&self, binding: u32) -> Slot
        ensures { result ≡ t.slot (tables_of self.now) binding }
    {
        match self.slots.get(binding as usize) {
            Some(slot) => *slot,
            None => NO_SLOT,
        }
    }

    /// The group frame with a number.
    pub(crate) fn region(&self, number: u32) -> Region
        ensures { result ≡ t.region (tables_of self.now) number }
    {
        match self.regions.get(number as usize) {
            Some(region) => *region,
            None => NO_REGION,
        }
    }

    /// The group frame of a part of a token, if that part has one.
    pub(crate) fn frame_at(&self, at: u32, second: bool) -> Option<Region>
        ensures { result ≡ framed_in (slice_get self.now.framed.now at) second }
    {
        match self.framed.get(at as usize) {
            Some(framed) => if second { framed.second } else { framed.first },
            None => None,
        }
    }

    /// Whether a part of a token has a group frame.
    pub fn is_framed(&self, at: u32, second: bool) -> bool
        ensures { result ≡ is_some (framed_in (slice_get self.now.framed.now at) second) }
    {
        self.frame_at(at, second).is_some()
    }

    /// The function that a binding names.
    pub(crate) fn callee(&self, binding: u32) -> Option<&'p Function<'t>>
        ensures { option_map (λ f. function_of f.now) result
            ≡ called (slice_get self.now.callees.now binding) (items_in self.now) }
    {
        match self.callees.get(binding as usize) {
            Some(Some(index)) => match self.items.get(*index) {
                Some(Item::Function(function)) => Some(function),
                _ => None,
            },
            _ => None,
        }
    }
}
