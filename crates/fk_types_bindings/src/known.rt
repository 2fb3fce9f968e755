//! The numbers of references.

ghost use Rattle.std.specs.Prelude.{◌≡◌, ℕ, IfSome, Some};
ghost use Rattle.fk_syntax.specs.declared.place.Spot.{Spot};
ghost use Rattle.fk_syntax.specs.Program.{ProgramTree};
ghost use Rattle.fk_syntax.specs.View.{named, type_of as type_tree};
ghost use Rattle.fk_types_structs.specs.Types.{member_named};
ghost use Rattle.fk_types_structs.specs.Words.{capped};
ghost use Rattle.fk_types_structs.specs.Sizes.{HasOffset};
ghost use Rattle.fk_types_structs.specs.Whole.{structs_in, IsSound};
ghost use Rattle.fk_types_names.specs.Names.{meaning_in};
ghost use Rattle.fk_types_judgments.specs.Names.{Env};
ghost use Rattle.fk_types_references.specs.References as r;
ghost use Rattle.fk_types_references.specs.View.{reference_of};
ghost use Rattle.fk_types_rules.specs.Noted as noted;
ghost use Rattle.fk_types_rules.specs.Bound as b;
ghost use Rattle.fk_types_bindings.specs.Known.{IsKnown, IsOffsetOf, IsTold, number_meant};

use fk_syntax::{Name, TypeName};
use fk_types_forms::{struct_at, struct_in};
use fk_types_names::{Meaning, Names};
use fk_types_operators::ExpressionType;
use fk_types_references::Reference;
use fk_types_structs::Structs;

// The number of a predeclared name.
const PREDECLARED: u32 = 4_294_967_295;

/// The facts about a program that determine the numbers of references.
#[derive(Drop)]
pub(crate) struct TypedProgram<'k, 'p, 'a> {
    pub(crate) structs: &'k Structs<'p, 'a>,
    pub(crate) names: &'k Names<'p, 'a>,
    /// The types of the program's tokens.
    pub(crate) types: &'k [Option<ExpressionType>],
}

// The number of what a name denotes.
fn number_meant(meaning: Option<Meaning>) -> Option<u32>
    ensures { result ≡ number_meant meaning }
{
    match meaning {
        Some(Meaning::Declared(number)) => Some(number),
        Some(Meaning::Predeclared) => Some(PREDECLARED),
        Some(Meaning::Undeclared) | None => None,
    }
}

// The struct whose member is named after an expression with this type.
fn struct_before(is_arrow: bool, kind: ExpressionType) -> Option<usize>
    ensures { result ≡ b.struct_before is_arrow kind }
{
    if is_arrow {
        struct_at(kind.value())
    } else {
        struct_in(Some(kind))
    }
}

impl TypedProgram<'_, '_, '_> {
    // The meaning of the token with this index.
    fn meaning(&self, at: u32) -> Option<Meaning>
        ensures { result ≡ meaning_in self.now.names.now at }
    {
        self.names.meanings.get(at as usize).copied().flatten()
    }

    // The type of the token with this index.
    fn type_at(&self, at: u32) -> Option<ExpressionType>
        ensures { result ≡ noted.type_at self.now.types.now at }
    {
        self.types.get(at as usize).copied().flatten()
    }

    // The number of what a name denotes.
    fn meant(&self, name: &Name) -> Option<u32>
        ensures { (env : Env) (program : ProgramTree) → IsKnown env program self.now
            → IsTold env program (r.Name (named name.now)) result }
    {
        number_meant(self.meaning(name.at))
    }

    // The number of words before a member of a struct.
    fn offset(&self, index: usize, member: &[u8]) -> Option<u32>
        requires { IsSound self.now.structs.now }
        ensures found { (place words : ℕ)
            → member_named (structs_in self.now.structs.now) index member.now ≡ Some place
            → HasOffset (structs_in self.now.structs.now) index place words
            → result ≡ Some (capped words) }
        ensures right { IfSome result
            (IsOffsetOf (structs_in self.now.structs.now) index member.now) }
    {
        let place = self.structs.find_member(index, member)?;
        self.structs.offset(index, place)
    }

    // The number of words before a member of the expression with this main token.
    fn words_before(&self, whole: u32, is_arrow: bool, member: &Name) -> Option<u32>
        requires { IsSound self.now.structs.now }
        ensures { (env : Env) (program : ProgramTree) → IsKnown env program self.now
            → IsTold env program (r.Member whole is_arrow (named member.now)) result }
    {
        let kind = self.type_at(whole)?;
        let index = struct_before(is_arrow, kind)?;
        self.offset(index, member.bytes)
    }

    // The number of bytes of a type.
    fn size(&self, kind: &TypeName) -> Option<u32>
        requires { IsSound self.now.structs.now }
        ensures { (env : Env) (program : ProgramTree) (spot : Spot) → IsKnown env program self.now
            → IsTold env program (r.Size spot (type_tree kind.now)) result }
    {
        let kind = self.structs.type_of(kind, None)?;
        let words = self.structs.words(&kind)?;
        Some(4 * words)
    }

    /// The number of a reference.
    pub(crate) fn number(&self, reference: &Reference) -> Option<u32>
        requires { IsSound self.now.structs.now }
        ensures { (env : Env) (program : ProgramTree) → IsKnown env program self.now
            → IsTold env program (reference_of reference.now) result }
    {
        match reference {
            Reference::Name(name) => self.meant(name),
            Reference::Member(whole, is_arrow, member) => {
                self.words_before(*whole, *is_arrow, member)
            }
            Reference::Size(_, kind) => self.size(kind),
        }
    }
}
