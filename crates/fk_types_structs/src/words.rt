//! The number of words of types. A size above the limit of 524,288 words counts as one above it.

ghost use Rattle.std.specs.Prelude.{◌≡◌, ◌<◌, None, length, All, count_by, is_none, IfOk};
ghost use Rattle.std.specs.Bool.{OnTrue, OnFalse};
ghost use Rattle.std.specs.Option.{option_map, option_and_then};
ghost use Rattle.fk_types_structs.specs.Words.{element_words, type_words, plus, total_words};
ghost use Rattle.fk_types_structs.specs.Words.{capped};
ghost use Rattle.fk_types_structs.specs.Table.{sizes_of, types_of, AreFound, AreStuck, AreWords};
ghost use Rattle.fk_types_structs.specs.Table.{AreOffsets, Settles};

use crate::order::order;
use crate::types::{DataType, Root};
use fk_num::MOST_DATA_WORDS;
use std::alloc::{AllocError, Global};

// The number that stands for all sizes above the limit.
const TOO_MANY: u32 = MOST_DATA_WORDS + 1;

// The number of words of a root under some pointers, given those of the structs.
fn element_words(sizes: &[Option<u32>], root: Root, stars: u32) -> Option<u32>
    ensures { result ≡ element_words (sizes_of sizes.now) root stars }
{
    if stars > 0 {
        return Some(1);
    }
    match root {
        Root::Int | Root::Unsigned => Some(1),
        Root::Void => Some(0),
        Root::Struct(index) => sizes.get(index as usize).copied().flatten(),
    }
}

/// The number of words of a type, given those of the structs.
pub(crate) fn type_words(sizes: &[Option<u32>], kind: &DataType) -> Option<u32>
    ensures { result ≡ option_map capped (type_words (sizes_of sizes.now) kind.now) }
{
    let words = element_words(sizes, kind.root, kind.stars)?;
    let length = kind.length.unwrap_or(1);
    let all = words as u64 * length as u64;
    Some(all.min(TOO_MANY as u64) as u32)
}

// The number of words of other types and one more type, if both are known.
fn after(sizes: &[Option<u32>], before: Option<u32>, kind: Option<DataType>) -> Option<u32>
    ensures { result ≡ option_map capped
        (plus before (option_and_then (type_words (sizes_of sizes.now)) kind)) }
{
    let before = before?;
    let words = type_words(sizes, &kind?)?;
    Some(before.saturating_add(words).min(TOO_MANY))
}

// The number of words of types that follow each other.
fn total_words(sizes: &[Option<u32>], kinds: &[Option<DataType>]) -> Option<u32>
    ensures { result ≡ option_map capped (total_words (sizes_of sizes.now) kinds.now) }
{
    let mut total = Some(0);
    for kind in kinds {
        total = after(sizes, total, *kind);
    }
    total
}

// Looks for the number of words of a struct that has none yet. Returns whether it found it.
fn settle_struct(sizes: &mut [Option<u32>], index: usize, kinds: &[Option<DataType>]) -> bool
    requires { index < length sizes.old }
    ensures found { OnTrue result (Settles sizes.old sizes.new index kinds.now) }
    ensures stuck { OnFalse result (sizes.new ≡ sizes.old) }
    ensures none { OnFalse result (sizes_of sizes.old index ≡ None
        → total_words (sizes_of sizes.old) kinds.now ≡ None) }
{
    if sizes[index].is_some() {
        return false;
    }
    match total_words(sizes, kinds) {
        Some(words) => {
            sizes[index] = Some(words);
            true
        }
        None => false,
    }
}

// Looks for the number of words of each struct that has none yet. Returns whether it found any.
fn settle(sizes: &mut [Option<u32>], structs: &[Vec<Option<DataType>>]) -> bool
    requires { length sizes.old ≡ length structs.now }
    ensures found { AreFound (types_of structs.now) sizes.old
        → AreFound (types_of structs.now) sizes.new }
    ensures progress { OnTrue result (count_by is_none sizes.new < count_by is_none sizes.old) }
    ensures stuck { OnFalse result (AreStuck (types_of structs.now) sizes.new) }
{
    let mut found = false;
    for (index, kinds) in structs.iter().enumerate() {
        if settle_struct(sizes, index, kinds) {
            found = true;
        }
    }
    found
}

// Looks for the number of words of structs in an order.
fn sweep(sizes: &mut [Option<u32>], structs: &[Vec<Option<DataType>>], order: &[usize])
    requires same_length { length sizes.old ≡ length structs.now }
    requires order { All (λ index. index < length structs.now) order.now }
    requires found { AreFound (types_of structs.now) sizes.old }
    ensures { AreFound (types_of structs.now) sizes.new }
{
    for index in order {
        settle_struct(sizes, *index, &structs[*index]);
    }
}

// Looks for the number of words of structs as long as it finds any.
fn settle_all(sizes: &mut [Option<u32>], structs: &[Vec<Option<DataType>>])
    requires same_length { length sizes.old ≡ length structs.now }
    requires found { AreFound (types_of structs.now) sizes.old }
    ensures { AreWords (types_of structs.now) sizes.new }
{
    while settle(sizes, structs) {}
}

/// The number of words of each struct, if it has one.
pub(crate) fn struct_words(
    alloc: Global,
    structs: &[Vec<Option<DataType>>],
) -> Result<Vec<Option<u32>>, AllocError>
    ensures { IfOk result (λ sizes. AreWords (types_of structs.now) sizes.items) }
{
    let mut sizes = vec![in alloc; None; structs.len()]?;
    let order = order(alloc, structs)?;
    sweep(&mut sizes, structs, &order);
    settle_all(&mut sizes, structs);
    Ok(sizes)
}

/// The number of words before each of some types that follow each other.
pub(crate) fn offsets(
    alloc: Global,
    sizes: &[Option<u32>],
    kinds: &[Option<DataType>],
) -> Result<Vec<Option<u32>>, AllocError>
    ensures { IfOk result (λ offsets. AreOffsets (sizes_of sizes.now) kinds.now offsets.items) }
{
    let mut offsets = Vec::new(alloc);
    let mut total = Some(0);
    for kind in kinds {
        offsets.push(total)?;
        total = after(sizes, total, *kind);
    }
    Ok(offsets)
}
