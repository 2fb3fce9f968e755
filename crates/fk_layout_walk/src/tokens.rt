//! The tokens that identify expressions.

ghost use Rattle.std.specs.Prelude.{◌≡◌, ℕ, map};
ghost use Rattle.fk_syntax.specs.Tree.{links_of, suffixes_of};
ghost use Rattle.fk_syntax.specs.View.{tree_of, link_of, suffix_of};
ghost use Rattle.fk_meaning_forms.specs.Expressions as e;
ghost use Rattle.fk_layout_walk.specs.Suffix.{suffix_at, or_before};

use fk_syntax::{Expr, Link, Suffix};

/// The token that identifies a suffix.
pub(crate) fn suffix_token(suffix: &Suffix) -> u32
    ensures { result ≡ suffix_at (suffix_of suffix.now) }
{
    match suffix {
        Suffix::Index(spot, _)
        | Suffix::Call(spot, _)
        | Suffix::Dot(spot, _)
        | Suffix::Arrow(spot, _)
        | Suffix::Up(spot)
        | Suffix::Down(spot) => spot.at,
    }
}

// The token of the last link of a chain.
fn last_link(links: &[Link]) -> Option<u32>
    ensures { (before : ℕ) → e.last_link before (links_of (map link_of links.now))
        ≡ or_before result before }
{
    match links.last() {
        Some(link) => Some(link.spot.at),
        None => None,
    }
}

// The token of the last suffix of an expression.
fn last_suffix(suffixes: &[Suffix]) -> Option<u32>
    ensures { (before : ℕ) → e.last_suffix before (suffixes_of (map suffix_of suffixes.now))
        ≡ or_before result before }
{
    match suffixes.last() {
        Some(suffix) => Some(suffix_token(suffix)),
        None => None,
    }
}

/// The token that identifies an expression: its sign, name or number. For a chain it is that of the
/// last link, and for suffixes that of the last one.
pub fn token_of(expression: &Expr) -> u32
    ensures { result ≡ e.token (tree_of expression.now) }
{
    match expression {
        Expr::Number(spot, _, _)
        | Expr::Puts(spot, _)
        | Expr::Sizeof(spot, _)
        | Expr::GroupNumber(spot)
        | Expr::GroupRank(spot)
        | Expr::Prefix(spot, _, _)
        | Expr::Cast(spot, _, _)
        | Expr::Assign(spot, _, _, _)
        | Expr::Choose(spot, _, _, _) => spot.at,
        Expr::Named(name) => name.at,
        Expr::Chain(first, links) => match last_link(links) {
            Some(at) => at,
            None => token_of(first),
        },
        Expr::Postfix(whole, suffixes) => match last_suffix(suffixes) {
            Some(at) => at,
            None => token_of(whole),
        },
    }
}
