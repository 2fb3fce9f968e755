//! The expressions that may be initial values at file scope.

ghost use Rattle.std.specs.Prelude.{◌≡◌, ◌||◌, map};
ghost use Rattle.fk_syntax.specs.declared.place.Spot.{Spot};
ghost use Rattle.fk_syntax.specs.Tree.{links_of};
ghost use Rattle.fk_syntax.specs.View.{named, tree_of, link_of};
ghost use Rattle.fk_types_judgments.specs.Term.{Term, Use, term_of, with_links, prefix_term};
ghost use Rattle.fk_types_judgments.specs.Names.{Env};
ghost use Rattle.fk_types_forms.specs.Scope.{env_in};
ghost use Rattle.fk_types_rules.specs.Constant.{is_more};

use fk_syntax::{Expr, Link, Name, Sign};
use fk_types_forms::Scope;
use fk_types_forms::forms::name as name_part;

// Whether a sign before an operand accesses memory, so that the expression isn't a constant.
fn is_of_memory(sign: Sign) -> bool
    ensures { (env : Env) (spot : Spot) (operand : Term)
        → is_more env (prefix_term spot sign operand) ≡ (result || is_more env operand) }
{
    match sign {
        Sign::Star | Sign::Ampersand | Sign::Increment | Sign::Decrement => true,
        _ => false,
    }
}

// Whether a name has a value by itself.
fn has_value(scope: &Scope, name: Name) -> bool
    ensures { result ≡ is_more (env_in scope.now) (Use (named name.entry)) }
{
    name_part(scope, name).value().is_some()
}

/// Whether an expression holds more than numbers, `sizeof`, casts, signs that take values, `?` with
/// its `:` and the comma. A name without a value breaks another rule, and is no more.
#[cycle(expression)]
pub(crate) fn is_more(scope: &Scope, expression: &Expr) -> bool
    ensures { result ≡ is_more (env_in scope.now) (term_of (tree_of expression.now)) }
{
    match expression {
        Expr::Number(_, _, _) | Expr::Sizeof(_, _) => false,
        Expr::Puts(_, _) | Expr::GroupNumber(_) | Expr::GroupRank(_) => true,
        Expr::Named(name) => has_value(scope, *name),
        Expr::Prefix(_, sign, operand) => is_of_memory(*sign) || is_more(scope, operand),
        Expr::Cast(_, _, operand) => is_more(scope, operand),
        Expr::Chain(first, links) => is_more(scope, first) || are_more(scope, links),
        Expr::Postfix(whole, suffixes) => !suffixes.is_empty() || is_more(scope, whole),
        Expr::Assign(_, _, _, _) => true,
        Expr::Choose(_, condition, first, second) => {
            is_more(scope, condition) || is_more(scope, first) || is_more(scope, second)
        }
    }
}

// Whether an expression isn't a constant because of these links.
#[cycle(expression)]
fn are_more(scope: &Scope, links: &[Link]) -> bool
    ensures { (before : Term)
        → is_more (env_in scope.now) (with_links before (links_of (map link_of links.now)))
        ≡ (is_more (env_in scope.now) before || result) }
{
    for link in links {
        if is_more(scope, &link.right) {
            return true;
        }
    }
    false
}
