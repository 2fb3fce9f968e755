//! The number of values and the depth of nesting of a function.

ghost use Rattle.std.specs.Prelude.{◌≡◌, ◌<◌, ◌^◌, map};
ghost use Rattle.fk_syntax.specs.ProgramView.{declared_of, function_of};
ghost use Rattle.fk_meaning_forms.specs.Code.{size};
ghost use Rattle.fk_layout_walk.specs.Known.{IsSound};
ghost use Rattle.fk_layout_walk_statements.specs.Texts.{code_in};
ghost use Rattle.fk_layout_sizes.specs.Places as p;

use crate::measure::Measure;
use fk_layout_walk::{Mark, ProgramTables};
use fk_layout_walk_statements::function;
use fk_syntax::{Declared, Function};

/// The room that a call of a function needs for values and nested parts.
#[derive(Clone, Copy, PartialEq, Eq, Debug)]
pub struct Extent {
    /// The greatest number of values.
    pub values: u64,
    /// The depth to which `start`, splits, `fork`, `farm` and `seq` nest in it.
    pub nesting: u64,
}

const BEGINNING: Mark = Mark {
    values: 0,
    most: 0,
    nesting: 0,
    deepest: 0,
};

// The number of values that a call needs to write its `sh` parameters into the frame of the
// function.
fn filling(parameters: &[Declared]) -> u64
    ensures { result ≡ p.filling (map declared_of parameters.now) }
{
    for parameter in parameters {
        if parameter.shared {
            return 2;
        }
    }
    0
}

/// The room that a call of a function needs, if it has fewer than 2^31 operations. It takes no
/// memory, and time linear in the function.
pub fn extent_of(known: &ProgramTables, whole: &Function) -> Extent
    requires { IsSound known.now }
    ensures values { size (code_in known.now (function_of whole.now)) < 2 ^ 31
        → result.values ≡ p.values_in known.now (function_of whole.now) }
    ensures nesting { size (code_in known.now (function_of whole.now)) < 2 ^ 31
        → result.nesting ≡ p.nesting_in known.now (function_of whole.now) }
{
    let mut measure = Measure { mark: BEGINNING };
    function(known, &mut measure, whole);
    Extent {
        values: measure.mark.most.max(filling(&whole.params)),
        nesting: measure.mark.deepest,
    }
}
