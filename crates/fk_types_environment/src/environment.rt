//! The facts about a program that are known before its expressions are read.

ghost use Rattle.std.specs.Prelude.{◌≡◌, IfOk};
ghost use Rattle.fk_types_structs.specs.Whole.{IsSound};
ghost use Rattle.fk_types_forms.specs.Scope.{env_in};
ghost use Rattle.fk_types_environment.specs.Environment.{env_of, IsRight};

use crate::declarations::all_known;
use crate::types::all_member_types;
use fk_types_forms::{Entity, Scope};
use fk_types_names::Names;
use fk_types_structs::{DataType, Structs};
use std::alloc::{AllocError, Global};

/// The facts about a program that are known before its expressions are read, besides its structs
/// and names: what each declaration declares, and the types of the members of structs. A name has
/// no type if its declaration breaks a rule.
#[derive(Drop)]
pub struct Environment {
    // What each declaration declares, by its number.
    known: Vec<Entity>,
    // The types of members, by the index of the struct and the position of the member in it.
    members: Vec<Vec<Option<DataType>>>,
}

impl Environment {
    /// The environment of the program with these structs and names, in time linear in its
    /// declarations. It fails only if there isn't enough memory.
    pub fn of(alloc: Global, structs: &Structs, names: &Names) -> Result<Self, AllocError>
        requires { IsSound structs.now }
        ensures { IfOk result (IsRight structs.now names.now) }
    {
        let known = all_known(alloc, structs, &names.declarations)?;
        let members = all_member_types(alloc, structs)?;
        Ok(Environment { known, members })
    }

    /// The scope of the expressions of the program.
    pub fn scope<'c, 'p, 'a>(
        &'c self,
        structs: &'c Structs<'p, 'a>,
        names: &'c Names<'p, 'a>,
    ) -> Scope<'c, 'p, 'a>
        ensures env { env_in result ≡ env_of structs.now names.now self.now }
        ensures structs { result.structs.now ≡ structs.now }
    {
        Scope {
            structs,
            names,
            known: &self.known,
            members: &self.members,
        }
    }
}
