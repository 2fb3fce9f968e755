//! The kinds of the types of tokens, and their numbers.

ghost use Rattle.std.specs.Prelude.{◌≡◌, ◌^◌, ◌<◌, ◌≤◌, ◌+◌, Some, length, slice_get, IfOk};
ghost use Rattle.std.specs.Prelude.{OnOk};
ghost use Rattle.std.specs.Bool.{OnTrue};
ghost use Rattle.fk_types_structs.specs.Whole.{structs_in, IsSound};
ghost use Rattle.fk_types_kinds.specs.Rows.{kind_in, kinds_in};
ghost use Rattle.fk_types_kinds.specs.Met.{IsNumbered, IsNext, AreMet};

use crate::kind::kind_of;
use fk_syntax::Kind;
use fk_types_operators::ExpressionType;
use fk_types_structs::Structs;
use indexmap::IndexSet;
use std::alloc::{AllocError, Global};

// A kind in a set, by its fields.
#[derive(Clone, Copy, PartialEq, Eq, Hash)]
struct Row {
    words: u32,
    unsigned: bool,
    array: bool,
    step: u32,
}

impl Row {
    fn of(kind: Kind) -> Self
        ensures { kind_in result ≡ kind }
    {
        Row {
            words: kind.words,
            unsigned: kind.unsigned,
            array: kind.array,
            step: kind.step,
        }
    }

    fn kind(&self) -> Kind
        ensures { result ≡ kind_in self.now }
    {
        Kind {
            words: self.words,
            unsigned: self.unsigned,
            array: self.array,
            step: self.step,
        }
    }
}

// Whether the kind with this number is that of a row.
fn is_kind(met: &IndexSet<Row>, number: usize, row: Row) -> bool
    ensures { OnTrue result (slice_get (kinds_in met.now.keys) number ≡ Some (kind_in row)) }
{
    match met.get_index(number) {
        Some(known) => *known == row,
        None => false,
    }
}

// The number of a kind among those that have occurred. A new one comes last. The set is searched
// only if the kind doesn't have the number `likely`.
fn number_of(met: &mut IndexSet<Row>, likely: usize, kind: Kind) -> Result<usize, AllocError>
    ensures numbered { IfOk result
        (λ number. IsNumbered (kinds_in met.old.keys) kind (kinds_in met.new.keys) number) }
    ensures last { IfOk result (λ number. number ≤ length met.old.keys) }
    ensures few { OnOk result (length met.new.keys ≤ length met.old.keys + 1) }
{
    let row = Row::of(kind);
    if is_kind(met, likely, row) {
        return Ok(likely);
    }
    let (number, _) = met.insert_full(row)?;
    Ok(number)
}

// The number of the kind of one more token: 0 if it has no type. `likely` is a number that the kind
// is likely to have.
fn meet(
    met: &mut IndexSet<Row>,
    likely: u32,
    structs: &Structs,
    kind: &Option<ExpressionType>,
) -> Result<u32, AllocError>
    requires sound { IsSound structs.now }
    requires few { length met.old.keys < 2 ^ 32 }
    ensures next { IfOk result (λ number. IsNext (structs_in structs.now) kind.now
        (kinds_in met.old.keys) (kinds_in met.new.keys) number) }
    ensures few { OnOk result (length met.new.keys ≤ length met.old.keys + 1) }
{
    match kind {
        Some(kind) => {
            let number = number_of(met, likely as usize, kind_of(structs, kind))?;
            Ok(number as u32)
        }
        None => Ok(0),
    }
}

fn list_of(alloc: Global, rows: &[Row]) -> Result<Vec<Kind>, AllocError>
    ensures { IfOk result (λ kinds. kinds.items ≡ kinds_in rows.now) }
{
    let mut kinds = Vec::new(alloc);
    for row in rows {
        kinds.push(row.kind())?;
    }
    Ok(kinds)
}

/// The kinds of the types of tokens.
#[derive(Drop)]
pub struct Kinds {
    /// For each token the number of the kind of its type, which is its index in `list`; 0 if the
    /// token has no type.
    pub numbers: Vec<u32>,
    /// Each kind once, in the order of the first occurrences among the tokens.
    pub list: Vec<Kind>,
}

impl Kinds {
    /// The kinds of the types of tokens, in linear time. It fails only if there isn't enough
    /// memory.
    pub fn of(
        alloc: Global,
        structs: &Structs,
        types: &[Option<ExpressionType>],
    ) -> Result<Self, AllocError>
        requires sound { IsSound structs.now }
        requires few { length types.now < 2 ^ 32 }
        ensures { IfOk result (λ kinds. AreMet (structs_in structs.now) types.now
            kinds.list.items kinds.numbers.items) }
    {
        let mut met = IndexSet::new(alloc);
        let mut numbers = Vec::with_capacity(alloc, types.len())?;
        // Most tokens have the kind of the one before them.
        let mut last = 0;
        for kind in types {
            let number = meet(&mut met, last, structs, kind)?;
            numbers.push(number)?;
            last = number;
        }
        let list = list_of(alloc, met.as_slice())?;
        Ok(Kinds { numbers, list })
    }
}
