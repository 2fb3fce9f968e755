//! Boxes for parsed statements.

ghost use Rattle.std.specs.Prelude.{◌≡◌, ◌⊎◌, List, Ok, Err, IfOk, IfErr, IsOk};
ghost use Rattle.fk_syntax.specs.Program.{Statement};
ghost use Rattle.fk_syntax.specs.ProgramView.{statement_of};
ghost use Rattle.fk_parse_combinators.specs.Faults.{IsMemory};
ghost use Rattle.fk_parse_combinators.specs.Languages.{Placed};
ghost use Rattle.fk_parse_combinators.specs.Reads.{Answer};
ghost use Rattle.fk_parse_combinators.specs.Gives.{Gives};
ghost use Rattle.fk_parse_headers.specs.Headers as h;
ghost use Rattle.fk_parse_headers.specs.View.{header_of};

use fk_parse_combinators::fault::SyntaxFault;
use fk_parse_headers::header::Header;
use fk_syntax::program::Stmt;
use std::alloc::Global;

/// A parsed value in a box. It adds a fault of its own only if there isn't enough memory.
pub(crate) fn in_box<T: Drop>(
    alloc: Global,
    read: Result<T, SyntaxFault>,
) -> Result<Box<T>, SyntaxFault>
    ensures value { IfOk result (λ boxed. read ≡ Ok boxed.value) }
    ensures fault { IfErr result (λ fault. read ≡ Err fault ⊎ IsMemory fault) }
{
    Ok(Box::new(alloc, read?)?)
}

/// The statement of a header and a body, if the body was read.
pub(crate) fn completed<'a>(
    header: Header<'a>,
    body: Result<Box<Stmt<'a>>, SyntaxFault>,
) -> Result<Stmt<'a>, SyntaxFault>
    ensures read { (now : List Placed) (answer : Answer Statement)
        → Gives
        (λ b. h.headed (header_of header.entry) (statement_of b.value)) body.entry now answer
        → Gives statement_of result now answer }
    ensures both { IfOk result (λ _. IsOk body.entry) }
{
    match body {
        Ok(inner) => Ok(header.complete(inner)),
        Err(fault) => {
            drop(header);
            Err(fault)
        }
    }
}
