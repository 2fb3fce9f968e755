//! Whether a program's nodes are identified by the indices of their tokens.

ghost use Rattle.std.specs.Prelude.{◌≡◌, ◌↔◌, ◌<◌, ◌≢◌, IsTrue, All, AllPairs};
ghost use Rattle.fk_syntax.specs.ProgramView.{program_of};
ghost use Rattle.fk_syntax.specs.Nodes.{items_indices};
ghost use Rattle.fk_syntax.specs.WellFormed.{IsWellFormed, token, nodes};

use crate::visitors::{Bound, Distinct, Rising};
use crate::walk::visit_program;
use fk_syntax::Program;

// Whether all indices in a program are indices of its tokens.
fn are_below(program: &Program) -> bool
    ensures { IsTrue result ↔ All (λ index. token index < program.now.tokens)
        (items_indices (program_of program.now).items) }
{
    let mut bound = Bound {
        tokens: program.tokens,
        holds: true,
    };
    visit_program(program, &mut bound);
    bound.holds
}

// Whether the indices of nodes rise in the order of the text.
fn are_rising(program: &Program) -> bool
    ensures { IsTrue result
        ↔ AllPairs (λ x y. x < y) (nodes (items_indices (program_of program.now).items)) }
{
    let mut rising = Rising {
        least: 0,
        holds: true,
    };
    visit_program(program, &mut rising);
    rising.holds
}

// Whether the indices of nodes differ. It walks over the program once for each node.
fn are_distinct(program: &Program) -> bool
    ensures { IsTrue result
        ↔ AllPairs (λ x y. x ≢ y) (nodes (items_indices (program_of program.now).items)) }
{
    let mut distinct = Distinct {
        program,
        holds: true,
    };
    visit_program(program, &mut distinct);
    distinct.holds
}

/// Whether each index in a program is that of a token, and all but those of the names of structs in
/// types differ. Then the index identifies a node of the program.
///
/// It takes no memory. If the indices of the nodes rise in the order of the text, as in a tree that
/// was parsed, it takes time linear in the size of the tree, otherwise quadratic time.
pub fn well_formed(program: &Program) -> bool
    ensures { IsTrue result ↔ IsWellFormed (program_of program.now) }
{
    are_below(program) && (are_rising(program) || are_distinct(program))
}
