//! Laws of the definitions.

ghost use Rattle.fk_lex.specs.Reading.{OneReading};
ghost use Rattle.fk_lex.specs.Spellings.{Spellings};

/// Every text has exactly one list of tokens or exactly one fault, and never both.
pub fn one_reading()
    ensures { OneReading }
{}

/// A comment is `/*`, bytes with no `*/` in them, and `*/`, or it is `//` and the bytes up to the
/// end of the line. An include line is `#include`, any blanks, `<fork.h>` or `<io.h>`, and any
/// blanks. A text is a quote, bytes that represent themselves and escapes, and a quote.
pub fn spellings()
    ensures { Spellings }
{}
