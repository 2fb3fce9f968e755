//! Expressions made of a first part and the part after it, if that was read too.
//!
//! After a fault the first part is released by `drop`, so that no proof goes through the cases of
//! expressions for it.

ghost use Rattle.std.specs.Prelude.{◌≡◌, map, List, Some, IfOk, IsOk};
ghost use Rattle.fk_syntax.specs.declared.sign.Sign.{Sign};
ghost use Rattle.fk_syntax.specs.Tree.{Tree, LinkTree, SuffixTree};
ghost use Rattle.fk_syntax.specs.View.{tree_of, link_of, suffix_of};
ghost use Rattle.fk_parse_combinators.specs.Languages.{Placed};
ghost use Rattle.fk_parse_combinators.specs.Reads.{Answer};
ghost use Rattle.fk_parse_combinators.specs.Ahead.{seen};
ghost use Rattle.fk_parse_combinators.specs.Gives.{Gives, Makes};
ghost use Rattle.fk_expr.specs.Grammar.{assigned, chained, chosen, suffixed};

use fk_parse_combinators::cursor::Numbered;
use fk_parse_combinators::fault::SyntaxFault;
use fk_syntax::expression::{Expr, Link, Suffix};
use fk_syntax::sign::Sign;
use std::alloc::{AllocError, Global};

/// The first operand with its links.
#[tactic(auto, using(crate::proofs::Halting::halting))]
pub(crate) fn with_links<'a>(
    alloc: Global,
    first: Expr<'a>,
    links: Result<Vec<Link<'a>>, SyntaxFault>,
) -> Result<Expr<'a>, SyntaxFault>
    ensures read { (now : List Placed) (answer : Answer (List LinkTree))
        → Gives (λ links. map link_of links.items) links.entry now answer
        → Makes (chained (tree_of first.entry)) tree_of result now answer }
    ensures both { IfOk result (λ _. IsOk links.entry) }
{
    match links {
        Ok(links) => Ok(chain(alloc, first, links)?),
        Err(fault) => {
            drop(first);
            Err(fault)
        }
    }
}

/// A primary expression with its suffixes.
#[tactic(auto, using(crate::proofs::Halting::halting))]
pub(crate) fn with_suffixes<'a>(
    alloc: Global,
    whole: Expr<'a>,
    suffixes: Result<Vec<Suffix<'a>>, SyntaxFault>,
) -> Result<Expr<'a>, SyntaxFault>
    ensures read { (now : List Placed) (answer : Answer (List SuffixTree))
        → Gives (λ suffixes. map suffix_of suffixes.items) suffixes.entry now answer
        → Makes (suffixed (tree_of whole.entry)) tree_of result now answer }
    ensures both { IfOk result (λ _. IsOk suffixes.entry) }
{
    match suffixes {
        Ok(suffixes) => Ok(suffixed(alloc, whole, suffixes)?),
        Err(fault) => {
            drop(whole);
            Err(fault)
        }
    }
}

/// The target of an assignment with its sign and value.
#[tactic(auto, using(crate::proofs::Halting::halting))]
pub(crate) fn with_value<'a>(
    alloc: Global,
    target: Expr<'a>,
    value: Result<((Numbered<'a>, Sign), Expr<'a>), SyntaxFault>,
) -> Result<Expr<'a>, SyntaxFault>
    ensures read { (now : List Placed) (answer : Answer ((Placed × Sign) × Tree))
        → Gives (λ x. ((seen x.0.0, x.0.1), tree_of x.1)) value.entry now answer
        → Makes (λ x. assigned (tree_of target.entry) (Some x)) tree_of result now answer }
    ensures both { IfOk result (λ _. IsOk value.entry) }
{
    match value {
        Ok(((token, sign), value)) => {
            Ok(Expr::assign(alloc, token.spot(), sign, target, value)?)
        }
        Err(fault) => {
            drop(target);
            Err(fault)
        }
    }
}

/// A condition with the branches that it chooses from.
#[tactic(auto, using(crate::proofs::Halting::halting))]
pub(crate) fn with_branches<'a>(
    alloc: Global,
    condition: Expr<'a>,
    branches: Result<(Numbered<'a>, (Expr<'a>, (Numbered<'a>, Expr<'a>))), SyntaxFault>,
) -> Result<Expr<'a>, SyntaxFault>
    ensures read { (now : List Placed) (answer : Answer (Placed × (Tree × (Placed × Tree))))
        → Gives (λ x. (seen x.0, (tree_of x.1.0, (seen x.1.1.0, tree_of x.1.1.1))))
        branches.entry now answer
        → Makes (λ x. chosen (tree_of condition.entry) (Some x)) tree_of result now answer }
    ensures both { IfOk result (λ _. IsOk branches.entry) }
{
    match branches {
        Ok((question, (first, (_colon, second)))) => {
            Ok(Expr::choose(alloc, question.spot(), condition, first, second)?)
        }
        Err(fault) => {
            drop(condition);
            Err(fault)
        }
    }
}

/// The first operand with its links, if there are any.
fn chain<'a>(alloc: Global, first: Expr<'a>, links: Vec<Link<'a>>) -> Result<Expr<'a>, AllocError>
    ensures { IfOk result
        (λ e. tree_of e ≡ chained (tree_of first.entry) (map link_of links.entry.items)) }
{
    if links.is_empty() {
        return Ok(first);
    }
    Expr::chain(alloc, first, links)
}

/// A primary expression with its suffixes, if there are any.
fn suffixed<'a>(
    alloc: Global,
    whole: Expr<'a>,
    suffixes: Vec<Suffix<'a>>,
) -> Result<Expr<'a>, AllocError>
    ensures { IfOk result
        (λ e. tree_of e ≡ suffixed (tree_of whole.entry) (map suffix_of suffixes.entry.items)) }
{
    if suffixes.is_empty() {
        return Ok(whole);
    }
    Expr::postfix(alloc, whole, suffixes)
}
