//! Shared variables of file scope by their names.

ghost use Rattle.std.specs.Prelude.{map};
ghost use Rattle.std.specs.Option.{option_map};
ghost use Rattle.fk_layout_globals.specs.View.{row_of};
ghost use Rattle.fk_compile_text.specs.Text.{IsRowOf};

use fk_layout_globals::GlobalRow;

/// The one of these rows that has a name. There is none exactly where none has it.
pub fn find_global<'a>(rows: &[GlobalRow<'a>], name: &[u8]) -> Option<GlobalRow<'a>>
    ensures { IsRowOf (map row_of rows.now) name.now (option_map row_of result) }
{
    for row in rows {
        if row.name == name {
            return Some(*row);
        }
    }
    None
}
