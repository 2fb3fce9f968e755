//! The references in expressions.

ghost use Rattle.std.specs.Prelude.{◌≡◌, ◌∷◌, ◌++◌, [], map, IfOk, OnOk};
ghost use Rattle.std.specs.Option.{option_map};
ghost use Rattle.fk_syntax.specs.Tree.{links_of, trees_of, suffixes_of};
ghost use Rattle.fk_syntax.specs.View.{tree_of, link_of, suffix_of};
ghost use Rattle.fk_types_references.specs.References.{main_token, after_links, after_suffixes};
ghost use Rattle.fk_types_references.specs.References.{tree_references, links_references};
ghost use Rattle.fk_types_references.specs.References.{trees_references, suffixes_references};
ghost use Rattle.fk_types_references.specs.References.{optional_references};
ghost use Rattle.fk_types_references.specs.View.{reference_of};
ghost use Rattle.fk_types_references.specs.Found.{found_in};

use fk_syntax::{Expr, Link, Name, Spot, Suffix, TypeName};
use std::alloc::{AllocError, Global};

/// A reference in an expression.
#[derive(Clone, Copy)]
pub enum Reference<'a> {
    /// A variable or a function.
    Name(Name<'a>),
    /// A member: the index of the main token of the expression before the `.` or `->`, whether it
    /// is `->`, and the member's name.
    Member(u32, bool, Name<'a>),
    /// A `sizeof`, with its type.
    Size(Spot, TypeName<'a>),
}

/// The references in expressions, in the order in which they are read.
#[derive(Drop)]
pub struct References<'a> {
    list: Vec<Reference<'a>>,
}

impl<'a> References<'a> {
    /// An empty list.
    pub fn new(alloc: Global) -> Self
        ensures { found_in result ≡ [] }
    {
        References {
            list: Vec::new(alloc),
        }
    }

    /// The references that were added, in order.
    pub fn list(&self) -> &[Reference<'a>]
        ensures { map reference_of result.now ≡ found_in self.now }
    {
        &self.list
    }

    fn push(reference: Reference<'a>, kept: &mut Self) -> Result<(), AllocError>
        ensures { OnOk result (found_in kept.new
            ≡ found_in kept.old ++ reference_of reference.entry ∷ []) }
    {
        kept.list.push(reference)?;
        Ok(())
    }

    /// Adds the references in an expression. Returns the index of its main token, which is its last
    /// sign, or its name or number. It fails only if there isn't enough memory.
    pub fn add(&mut self, expression: &Expr<'a>) -> Result<u32, AllocError>
        ensures main { IfOk result (λ at. at ≡ main_token (tree_of expression.now)) }
        ensures added { OnOk result (found_in self.new
            ≡ found_in self.old ++ tree_references (tree_of expression.now)) }
    {
        Self::add_tree(expression, self)
    }

    // In this function and those below, the inputs come before the list that grows, because such
    // calls have shorter proofs than methods.
    #[cycle(expression)]
    fn add_tree(expression: &Expr<'a>, kept: &mut Self) -> Result<u32, AllocError>
        ensures main { IfOk result (λ at. at ≡ main_token (tree_of expression.now)) }
        ensures added { OnOk result (found_in kept.new
            ≡ found_in kept.old ++ tree_references (tree_of expression.now)) }
    {
        match expression {
            Expr::Number(spot, _, _)
            | Expr::Puts(spot, _)
            | Expr::GroupNumber(spot)
            | Expr::GroupRank(spot) => Ok(spot.at),
            Expr::Named(name) => {
                Self::push(Reference::Name(*name), kept)?;
                Ok(name.at)
            }
            Expr::Sizeof(spot, kind) => {
                Self::push(Reference::Size(*spot, *kind), kept)?;
                Ok(spot.at)
            }
            Expr::Prefix(spot, _, operand) | Expr::Cast(spot, _, operand) => {
                Self::add_tree(operand, kept)?;
                Ok(spot.at)
            }
            Expr::Chain(first, links) => {
                let at = Self::add_tree(first, kept)?;
                Self::add_links(links, at, kept)
            }
            Expr::Postfix(whole, suffixes) => {
                let at = Self::add_tree(whole, kept)?;
                Self::add_suffixes(suffixes, at, kept)
            }
            Expr::Assign(spot, _, target, value) => {
                Self::add_tree(target, kept)?;
                Self::add_tree(value, kept)?;
                Ok(spot.at)
            }
            Expr::Choose(spot, condition, first, second) => {
                Self::add_tree(condition, kept)?;
                Self::add_tree(first, kept)?;
                Self::add_tree(second, kept)?;
                Ok(spot.at)
            }
        }
    }

    #[cycle(expression)]
    fn add_links(links: &[Link<'a>], first: u32, kept: &mut Self) -> Result<u32, AllocError>
        ensures main { IfOk result
            (λ at. at ≡ after_links first (links_of (map link_of links.now))) }
        ensures added { OnOk result (found_in kept.new
            ≡ found_in kept.old ++ links_references (links_of (map link_of links.now))) }
    {
        let mut at = first;
        for link in links {
            Self::add_tree(&link.right, kept)?;
            at = link.spot.at;
        }
        Ok(at)
    }

    // Adds the references in one suffix of an expression with this main token.
    #[cycle(expression)]
    fn add_suffix(suffix: &Suffix<'a>, whole: u32, kept: &mut Self) -> Result<u32, AllocError>
        ensures main { IfOk result
            (λ at. at ≡ after_suffixes whole (suffixes_of (suffix_of suffix.now ∷ []))) }
        ensures added { OnOk result (found_in kept.new ≡ found_in kept.old
            ++ suffixes_references whole (suffixes_of (suffix_of suffix.now ∷ []))) }
    {
        match suffix {
            Suffix::Index(spot, by) => {
                Self::add_tree(by, kept)?;
                Ok(spot.at)
            }
            Suffix::Call(spot, arguments) => {
                Self::add_all(arguments, kept)?;
                Ok(spot.at)
            }
            Suffix::Dot(spot, name) => {
                Self::push(Reference::Member(whole, false, *name), kept)?;
                Ok(spot.at)
            }
            Suffix::Arrow(spot, name) => {
                Self::push(Reference::Member(whole, true, *name), kept)?;
                Ok(spot.at)
            }
            Suffix::Up(spot) | Suffix::Down(spot) => Ok(spot.at),
        }
    }

    #[cycle(expression)]
    fn add_suffixes(suffixes: &[Suffix<'a>], whole: u32, kept: &mut Self) -> Result<u32, AllocError>
        ensures main { IfOk result
            (λ at. at ≡ after_suffixes whole (suffixes_of (map suffix_of suffixes.now))) }
        ensures added { OnOk result (found_in kept.new ≡ found_in kept.old
            ++ suffixes_references whole (suffixes_of (map suffix_of suffixes.now))) }
    {
        let mut at = whole;
        for suffix in suffixes {
            at = Self::add_suffix(suffix, at, kept)?;
        }
        Ok(at)
    }

    #[cycle(expression)]
    fn add_all(expressions: &[Expr<'a>], kept: &mut Self) -> Result<(), AllocError>
        ensures { OnOk result (found_in kept.new
            ≡ found_in kept.old ++ trees_references (trees_of (map tree_of expressions.now))) }
    {
        for expression in expressions {
            Self::add_tree(expression, kept)?;
        }
        Ok(())
    }

    /// Adds the references in an expression, if there is one. It fails only if there isn't enough
    /// memory.
    pub fn add_optional(&mut self, expression: &Option<Expr<'a>>) -> Result<(), AllocError>
        ensures { OnOk result (found_in self.new
            ≡ found_in self.old ++ optional_references (option_map tree_of expression.now)) }
    {
        if let Some(expression) = expression {
            Self::add_tree(expression, self)?;
        }
        Ok(())
    }
}
