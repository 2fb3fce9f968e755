//! The references in the pieces of a text.

ghost use Rattle.std.specs.Prelude.{◌≡◌, ◌++◌, map, IfOk, OnOk};
ghost use Rattle.fk_types_obligations.specs.View.{piece_of};
ghost use Rattle.fk_types_references.specs.Found.{found_in};
ghost use Rattle.fk_types_rules.specs.Bound.{piece_references, pieces_references};

use fk_types_obligations::Piece;
use fk_types_references::References;
use std::alloc::{AllocError, Global};

// Adds the references in the expressions of a piece.
fn add_piece<'a>(references: &mut References<'a>, piece: &Piece<'_, 'a>) -> Result<(), AllocError>
    ensures { OnOk result (found_in references.new
        ≡ found_in references.old ++ piece_references (piece_of piece.now)) }
{
    match piece {
        Piece::FileVariable(variable) => references.add_optional(&variable.first),
        Piece::Variable(variable) => references.add_optional(&variable.first),
        Piece::Parameter(_) | Piece::Header(_) => Ok(()),
        Piece::Used(_, value) => {
            references.add(value)?;
            Ok(())
        }
        Piece::Return(_, _, value) => references.add_optional(value),
    }
}

/// The references in the expressions of pieces, in their order. It fails only if there isn't enough
/// memory.
pub(crate) fn references_in<'a>(
    alloc: Global,
    pieces: &[Piece<'_, 'a>],
) -> Result<References<'a>, AllocError>
    ensures { IfOk result
        (λ all. found_in all ≡ pieces_references (map piece_of pieces.now)) }
{
    let mut all = References::new(alloc);
    for piece in pieces {
        add_piece(&mut all, piece)?;
    }
    Ok(all)
}
