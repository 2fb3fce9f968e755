//! The tree of a text, and the facts of one that keeps the rules.

ghost use Rattle.std.specs.Prelude.{◌≡◌, ◌↔◌, ◌≤◌, ◌<◌, ◌^◌, ℕ, List, IfOk, IfErr, OnOk, length};
ghost use Rattle.std.specs.Prelude.{vec_len};
ghost use Rattle.fk_num.specs.Limits.{most_data_words, most_text_bytes};
ghost use Rattle.fk_lex.specs.View.{IsFault};
ghost use Rattle.fk_syntax.specs.declared.place.Place.{Place};
ghost use Rattle.fk_syntax.specs.ProgramView.{program_of};
ghost use Rattle.fk_syntax.specs.WellFormed.{IsWellFormed};
ghost use Rattle.fk_compile_text.specs.Refusal.{IsRefusedText};
ghost use Rattle.fk_compile_text.specs.Text.{HasBrokenRule, HasTree, HasSyntaxFault, IsChecked};

use crate::refusal::Refusal;
use fk_check::checked;
use fk_lex::lex::lex;
use fk_lex::token::LexFault;
use fk_num::MOST_TEXT_BYTES;
use fk_parse::{SyntaxFault, parse};
use fk_syntax::{CheckFault, Facts, Program as Tree};
use std::alloc::{AllocError, Global};

// Tests that a text isn't too long.
fn test_length(source: &[u8]) -> Result<(), Refusal>
    ensures short { OnOk result (length source.now ≤ most_text_bytes) }
    ensures long { IfErr result (λ refusal. (most_text_bytes < length source.now)
        × (refusal ≡ Refusal.SourceTooLong (length source.now))) }
{
    if source.len() > MOST_TEXT_BYTES {
        Err(Refusal::SourceTooLong(source.len() as u64))
    } else {
        Ok(())
    }
}

/// The tree of a text, or the reason why it has none.
pub(crate) fn tree_of<'a>(alloc: Global, source: &'a [u8]) -> Result<Tree<'a>, Refusal>
    ensures tree { IfOk result (λ tree. HasTree source.now (program_of tree)) }
    ensures well_formed { IfOk result (λ tree. IsWellFormed (program_of tree)) }
    // A token has at least one byte, and an item at least two tokens.
    ensures small { IfOk result (λ tree. tree.tokens ≤ 2 ^ 20) }
    ensures few { IfOk result (λ tree. vec_len tree.items ≤ most_data_words) }
    ensures short { OnOk result (length source.now ≤ most_text_bytes) }
    ensures refused { IfErr result (IsRefusedText source.now) }
{
    test_length(source)?;
    let tokens = lex(alloc, source).map_err(lexical)?;
    let tree = parse(alloc, tokens.as_slice()).map_err(syntactic)?;
    Ok(tree)
}

/// The tree of a text that keeps all rules, and its facts.
#[derive(Drop)]
pub(crate) struct Checked<'a> {
    pub(crate) tree: Tree<'a>,
    pub(crate) facts: Facts,
}

/// The tree of a text that keeps all rules, with its facts; or the reason why it has no tree, or
/// the rule that it breaks.
pub(crate) fn checked_text<'a>(alloc: Global, source: &'a [u8]) -> Result<Checked<'a>, Refusal>
    ensures checked { IfOk result (λ text. IsChecked source.now (program_of text.tree) text.facts) }
    ensures well_formed { IfOk result (λ text. IsWellFormed (program_of text.tree)) }
    ensures small { IfOk result (λ text. text.tree.tokens ≤ 2 ^ 20) }
    // An item has at least two tokens.
    ensures few { IfOk result (λ text. vec_len text.tree.items ≤ most_data_words) }
    ensures short { OnOk result (length source.now ≤ most_text_bytes) }
    ensures refused { IfErr result (IsRefusedText source.now) }
{
    let tree = tree_of(alloc, source)?;
    let facts = checked(alloc, &tree).map_err(broken)?;
    Ok(Checked { tree, facts })
}

// The refusal for a lexical fault.
fn lexical(fault: LexFault) -> Refusal
    ensures memory { (e : AllocError) → (result ≡ Refusal.Memory e) ↔ (fault ≡ LexFault.Memory e) }
    ensures refused { (source : List ℕ) → length source ≤ most_text_bytes → IsFault source fault
        → IsRefusedText source result }
{
    match fault {
        LexFault::BadByte(place) => Refusal::BadByte(place),
        LexFault::OpenComment(place) => Refusal::OpenComment(place),
        LexFault::OpenString(place) => Refusal::OpenString(place),
        LexFault::WideNumber(place) => Refusal::WideNumber(place),
        LexFault::Memory(error) => Refusal::Memory(error),
    }
}

// The refusal for a fault of the tokens.
fn syntactic(fault: SyntaxFault) -> Refusal
    ensures memory { (e : AllocError)
        → (result ≡ Refusal.Memory e) ↔ (fault ≡ SyntaxFault.Memory e) }
    ensures refused { (source : List ℕ) → length source ≤ most_text_bytes
        → HasSyntaxFault source fault
        → IsRefusedText source result }
{
    match fault {
        SyntaxFault::Unexpected(place) => Refusal::Unexpected(place),
        SyntaxFault::EndOfText => Refusal::EndOfText,
        SyntaxFault::Nesting(place) => Refusal::Nesting(place),
        SyntaxFault::Memory(error) => Refusal::Memory(error),
    }
}

// The refusal for a broken rule.
fn broken(fault: CheckFault) -> Refusal
    ensures memory { (e : AllocError) → (result ≡ Refusal.Memory e) ↔ (fault ≡ CheckFault.Memory) }
    ensures refused { (source : List ℕ) → length source ≤ most_text_bytes
        → ((place : Place) (number : ℕ) → fault ≡ CheckFault.Rule place number
        → HasBrokenRule source place number) → IsRefusedText source result }
{
    match fault {
        CheckFault::Rule(place, number) => Refusal::Rule(place, number),
        CheckFault::Memory => Refusal::Memory(AllocError),
    }
}
