//! Whether a header comes next.

ghost use Rattle.std.specs.Prelude.{◌≡◌};
ghost use Rattle.fk_parse_combinators.specs.Readers.{next_is};
ghost use Rattle.fk_parse_headers.specs.Headers.{begins_header};

use crate::kinds::begins_header;
use fk_parse_combinators::cursor::Cursor;

/// Whether what stands before the last statement in a statement comes next.
pub fn header_is_next(cursor: &Cursor) -> bool
    ensures { result ≡ next_is begins_header cursor.now }
{
    match cursor.peek() {
        Some(kind) => begins_header(kind),
        None => false,
    }
}
