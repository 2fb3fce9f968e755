//! Names and their first positions.

ghost use Rattle.std.specs.Prelude.{◌≡◌, ℕ, List, [], ◌∷◌, ◌++◌, length, map, IfOk, OnOk};
ghost use Rattle.fk_syntax.specs.ProgramView.{declared_of};
ghost use Rattle.fk_types_structs.specs.Types.{first_of, names_of, member_names};
ghost use Rattle.fk_types_structs.specs.View.{outline_tree, Finds};

use crate::outline::Outline;
use fk_syntax::Declared;
use indexmap::IndexMap;
use std::alloc::{AllocError, Global};

/// The first position of each name in a list, from 0.
pub(crate) type Places<'a> = IndexMap<&'a [u8], u32>;

/// The greatest position of a name.
pub(crate) const MOST: usize = 4_294_967_295;

// A position as a word. It fails for one that has no room in a word.
fn word_of(place: usize) -> Result<u32, AllocError>
    ensures { IfOk result (λ word. word ≡ place) }
{
    if place > MOST {
        return Err(AllocError);
    }
    Ok(place as u32)
}

// Adds a name at a position after those of all names so far.
fn add<'a>(places: &mut Places<'a>, name: &'a [u8], place: usize) -> Result<(), AllocError>
    ensures { OnOk result ((names : List (List ℕ)) → place ≡ length names
        → Finds places.old.entries names → Finds places.new.entries (names ++ name.now ∷ [])) }
{
    if places.get(name).is_some() {
        return Ok(());
    }
    let word = word_of(place)?;
    places.insert(name, word)?;
    Ok(())
}

/// The first position of a name in a list.
pub(crate) fn place_of(places: &Places, name: &[u8]) -> Option<usize>
    ensures { (names : List (List ℕ)) → Finds places.now.entries names
        → result ≡ first_of name.now names }
{
    match places.get(name) {
        Some(place) => Some(*place as usize),
        None => None,
    }
}

/// The first position of each name among the members of a struct.
pub(crate) fn member_places<'a>(
    alloc: Global,
    members: &[Declared<'a>],
) -> Result<Places<'a>, AllocError>
    ensures { IfOk result
        (λ places. Finds places.entries (member_names (map declared_of members.now))) }
{
    let mut places = IndexMap::new(alloc);
    for (place, member) in members.iter().enumerate() {
        add(&mut places, member.name.bytes, place)?;
    }
    Ok(places)
}

/// The first position of each name among those of structs.
pub(crate) fn struct_places<'a>(
    alloc: Global,
    structs: &[Outline<'_, 'a>],
) -> Result<Places<'a>, AllocError>
    ensures { IfOk result
        (λ places. Finds places.entries (names_of (map outline_tree structs.now))) }
{
    let mut places = IndexMap::new(alloc);
    for (place, outline) in structs.iter().enumerate() {
        add(&mut places, outline.name.bytes, place)?;
    }
    Ok(places)
}
