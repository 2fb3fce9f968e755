//! The words of file scope of a whole text.

ghost use Rattle.std.specs.Prelude.{◌≡◌, ◌≤◌, ◌<◌, ◌^◌, ◌-◌, map, min, flat_map, length, IfOk};
ghost use Rattle.std.specs.Prelude.{IfErr, OnErr, OnOk};
ghost use Rattle.fk_num.specs.Limits.{most_data_words};
ghost use Rattle.fk_syntax.specs.ProgramView.{item_of};
ghost use Rattle.fk_layout_globals.specs.Constants.{told};
ghost use Rattle.fk_layout_globals.specs.Variables.{declared_behind};
ghost use Rattle.fk_layout_globals.specs.Rows as r;
ghost use Rattle.fk_layout_globals.specs.Rows.{rows, words, firsts, total};
ghost use Rattle.fk_layout_globals.specs.View.{tables_of, row_of};
ghost use Rattle.fk_layout_globals.specs.Fault.{IsFault};

use crate::rows::{GlobalRow, count_words, lay_firsts, lay_rows, lay_words};
use crate::types::Types;
use crate::variables::file_variables;
use fk_num::MOST_DATA_WORDS;
use fk_syntax::{Declared, Item, Kind, Note};
use std::alloc::{AllocError, Global};
use thiserror::Error;

/// The variables of file scope of a text.
#[derive(Debug, Drop)]
pub struct Globals<'a> {
    /// The shared ones, in the order of the text.
    pub rows: Vec<GlobalRow<'a>>,
    /// The initial values of all words of these rows.
    pub words: Vec<u32>,
    /// The initial values of the private ones, in the order of the text.
    pub firsts: Vec<u32>,
}

/// Why the variables of file scope of a text are refused.
#[derive(Clone, Copy, Debug, PartialEq, Eq, Error)]
pub enum GlobalsFault {
    /// The shared ones have this number of words, which is more than an image can have; at most
    /// 2^64 - 1 is reported.
    #[error("{0} words of shared variables are too many")]
    TooLarge(u64),
    /// There isn't enough memory.
    #[error("out of memory")]
    Memory,
}

// The fault that there isn't enough memory.
fn out_of_memory(_refused: AllocError) -> GlobalsFault
    ensures { result ≡ GlobalsFault.Memory }
{
    GlobalsFault::Memory
}

// Tests that these variables have not more words than an image can have.
fn check_words(types: &Types, shared: &Vec<&Declared>) -> Result<(), GlobalsFault>
    ensures few { OnOk result
        (r.total_of (tables_of types.now) (declared_behind shared.now.items) ≤ most_data_words) }
    ensures many { OnErr result
        (most_data_words < r.total_of (tables_of types.now) (declared_behind shared.now.items)) }
    ensures told { IfErr result (λ fault. fault ≡ GlobalsFault.TooLarge
        (min (r.total_of (tables_of types.now) (declared_behind shared.now.items)) (2 ^ 64 - 1))) }
{
    let count = count_words(types, shared);
    if count > u64::from(MOST_DATA_WORDS) {
        return Err(GlobalsFault::TooLarge(count));
    }
    Ok(())
}

// The rows and words of shared variables, and what private ones begin as.
#[tactic(auto, using(crate::proofs::Lengths::length_of_words))]
fn laid_out<'a>(
    alloc: Global,
    types: &Types,
    shared: &Vec<&Declared<'a>>,
    private: &Vec<&Declared<'a>>,
) -> Result<Globals<'a>, AllocError>
    requires { r.total_of (tables_of types.now) (declared_behind shared.now.items)
        ≤ most_data_words }
    ensures rows { IfOk result (λ globals. map row_of globals.rows.items
        ≡ r.rows_from (tables_of types.now) 0 (declared_behind shared.now.items)) }
    ensures words { IfOk result (λ globals. globals.words.items
        ≡ flat_map (r.words_at_first (tables_of types.now)) (declared_behind shared.now.items)) }
    ensures firsts { IfOk result (λ globals. globals.firsts.items
        ≡ map (r.first_of (tables_of types.now)) (declared_behind private.now.items)) }
    ensures count { IfOk result (λ globals. length globals.words.items
        ≡ r.total_of (tables_of types.now) (declared_behind shared.now.items)) }
{
    let rows = lay_rows(alloc, types, shared)?;
    let words = lay_words(alloc, types, shared)?;
    let firsts = lay_firsts(alloc, types, private)?;
    Ok(Globals {
        rows,
        words,
        firsts,
    })
}

/// The variables of file scope of a text: a row for each shared one, the initial values of their
/// words, and the initial values of the private ones. It takes time linear in the text and the
/// words. The words are counted before anything of their size is allocated.
///
/// # Errors
/// `TooLarge` exactly if the shared ones have more than 524,288 words, with their number.
pub fn lay_globals<'a>(
    alloc: Global,
    items: &[Item<'a>],
    notes: &[Note],
    kinds: &[Kind],
) -> Result<Globals<'a>, GlobalsFault>
    ensures rows { IfOk result (λ globals. map row_of globals.rows.items
        ≡ rows (told notes.now kinds.now) (map item_of items.now)) }
    ensures words { IfOk result (λ globals. globals.words.items
        ≡ words (told notes.now kinds.now) (map item_of items.now)) }
    ensures firsts { IfOk result (λ globals. globals.firsts.items
        ≡ firsts (told notes.now kinds.now) (map item_of items.now)) }
    ensures count { IfOk result (λ globals. length globals.words.items
        ≡ total (told notes.now kinds.now) (map item_of items.now)) }
    ensures fits { OnOk result
        (total (told notes.now kinds.now) (map item_of items.now) ≤ most_data_words) }
    ensures refused { IfErr result
        (IsFault (total (told notes.now kinds.now) (map item_of items.now))) }
{
    let types = Types { notes, kinds };
    let shared = file_variables(alloc, items, true).map_err(out_of_memory)?;
    check_words(&types, &shared)?;
    let private = file_variables(alloc, items, false).map_err(out_of_memory)?;
    laid_out(alloc, &types, &shared, &private).map_err(out_of_memory)
}
