//! Where the variables of file scope lie, and their initial values.

ghost use Rattle.std.specs.Prelude.{◌≡◌, ◌≤◌, ◌<◌, ◌^◌, ◌-◌, ◌++◌, List, map, flat_map, min, IfOk};
ghost use Rattle.std.specs.Prelude.{IfErr, OnOk};
ghost use Rattle.fk_num.specs.Limits.{most_data_words};
ghost use Rattle.fk_syntax.specs.View.{type_of};
ghost use Rattle.fk_syntax.specs.ProgramView.{declared_of};
ghost use Rattle.fk_layout_globals.specs.Rows as r;
ghost use Rattle.fk_layout_globals.specs.Variables.{declared_behind};
ghost use Rattle.fk_layout_globals.specs.View.{tables_of, row_of};

use crate::constants::constant;
use crate::types::Types;
use fk_syntax::{Base, Declared, TypeName};
use std::alloc::{AllocError, Global};

/// Where a shared variable of file scope lies among the words of shared data, and how it is shown.
#[derive(Clone, Copy, PartialEq, Eq, Debug)]
pub struct GlobalRow<'a> {
    pub name: &'a [u8],
    /// The index of its first word.
    pub first: u32,
    /// The number of its words.
    pub words: u32,
    /// Whether its words are shown as signed numbers.
    pub signed: bool,
}

// Whether the words of variables of a type are shown as signed numbers.
fn is_signed(kind: &TypeName) -> bool
    ensures { result ≡ r.is_signed (type_of kind.now) }
{
    match kind.base {
        Base::Unsigned => false,
        Base::Int | Base::Void | Base::Struct(_) => kind.stars == 0,
    }
}

// The number of words of a variable.
fn words_of(types: &Types, variable: &Declared) -> u32
    ensures { result ≡ r.words_of (tables_of types.now) (declared_of variable.now) }
{
    types.kind_at(variable.name.at).words
}

// The initial value of a variable.
fn first_of(types: &Types, variable: &Declared) -> u32
    ensures { result ≡ r.first_of (tables_of types.now) (declared_of variable.now) }
{
    match &variable.first {
        Some(value) => constant(types, value),
        None => 0,
    }
}

/// The number of words of all variables; at most 2^64 - 1.
pub(crate) fn count_words(types: &Types, variables: &Vec<&Declared>) -> u64
    ensures { result ≡ min
        (r.total_of (tables_of types.now) (declared_behind variables.now.items)) (2 ^ 64 - 1) }
{
    let mut total: u64 = 0;
    for index in 0..variables.len() {
        total = total.saturating_add(u64::from(words_of(types, variables[index])));
    }
    total
}

/// The rows of variables, which lie one after the other.
pub(crate) fn lay_rows<'a>(
    alloc: Global,
    types: &Types,
    variables: &Vec<&Declared<'a>>,
) -> Result<Vec<GlobalRow<'a>>, AllocError>
    requires { r.total_of (tables_of types.now) (declared_behind variables.now.items)
        ≤ most_data_words }
    ensures { IfOk result (λ rows. map row_of rows.items
        ≡ r.rows_from (tables_of types.now) 0 (declared_behind variables.now.items)) }
{
    let mut rows = Vec::new(alloc);
    let mut first = 0;
    for index in 0..variables.len() {
        let variable = variables[index];
        let words = words_of(types, variable);
        rows.push(GlobalRow {
            name: variable.name.bytes,
            first,
            words,
            signed: is_signed(&variable.kind),
        })?;
        first += words;
    }
    Ok(rows)
}

// Appends the words of a variable: its value, and zeros.
fn put(words: &mut Vec<u32>, count: u32, value: u32) -> Result<(), AllocError>
    ensures { OnOk result (words.new.items ≡ words.old.items ++ r.begun count value) }
{
    let mut next = value;
    for _ in 0..count {
        words.push(next)?;
        next = 0;
    }
    Ok(())
}

/// The initial values of all words of variables.
pub(crate) fn lay_words(
    alloc: Global,
    types: &Types,
    variables: &Vec<&Declared>,
) -> Result<Vec<u32>, AllocError>
    ensures { IfOk result (λ words. words.items
        ≡ flat_map (r.words_at_first (tables_of types.now)) (declared_behind variables.now.items)) }
{
    let mut words = Vec::new(alloc);
    for index in 0..variables.len() {
        let variable = variables[index];
        put(
            &mut words,
            words_of(types, variable),
            first_of(types, variable),
        )?;
    }
    Ok(words)
}

/// The initial values of variables that have one word each.
pub(crate) fn lay_firsts(
    alloc: Global,
    types: &Types,
    variables: &Vec<&Declared>,
) -> Result<Vec<u32>, AllocError>
    ensures { IfOk result (λ firsts. firsts.items
        ≡ map (r.first_of (tables_of types.now)) (declared_behind variables.now.items)) }
{
    let mut firsts = Vec::new(alloc);
    for index in 0..variables.len() {
        let variable = variables[index];
        firsts.push(first_of(types, variable))?;
    }
    Ok(firsts)
}
