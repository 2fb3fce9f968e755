//! All rules about the declarations of structs.

ghost use Rattle.std.specs.Prelude.{IfOk};
ghost use Rattle.fk_check_rules.specs.Least.{IsLeast};
ghost use Rattle.fk_types_structs.specs.Whole.{structs_in, IsSound};
ghost use Rattle.fk_types_struct_rules.specs.Structs.{StructsBreak};

use crate::holding::holding_fault;
use crate::members::declared_fault;
use fk_check_rules::{Fault, first_of};
use fk_types_structs::Structs;
use std::alloc::{AllocError, Global};

/// The first rule that the declarations of structs break: a struct or a member that is declared
/// twice, a struct that contains itself or has too many words, or a fault of a member's type and
/// length. It fails only if there isn't enough memory.
pub fn structs_fault(alloc: Global, structs: &Structs) -> Result<Option<Fault>, AllocError>
    requires { IsSound structs.now }
    ensures { IfOk result (λ fault. IsLeast (StructsBreak (structs_in structs.now)) fault) }
{
    let holding = holding_fault(alloc, structs)?;
    Ok(first_of(holding, declared_fault(structs)))
}
