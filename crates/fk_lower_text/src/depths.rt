//! The number of values that the running call has before each operation of a text.

ghost use Rattle.std.specs.Prelude.{◌≡◌, ◌*◌, ◌^◌, ◌<◌, ◌∷◌, List, IfOk, IfErr, length, map};
ghost use Rattle.fk_syntax.specs.Program.{ItemTree};
ghost use Rattle.fk_syntax.specs.ProgramView.{item_of};
ghost use Rattle.fk_meaning_forms.specs.Program as f;
ghost use Rattle.fk_layout_walk.specs.Known.{IsSound};
ghost use Rattle.fk_layout_walk_statements.specs.Texts.{functions_in, sites_of_text};
ghost use Rattle.fk_lower_text.specs.Depths.{HaveOpenings};
ghost use Rattle.fk_lower_text.specs.Depths as d;
ghost use Rattle.fk_lower_text.specs.Telling.{told_depth, through_functions};

use crate::height::Height;
use fk_layout_walk::{Event, Mark, ProgramTables, Visitor};
use fk_layout_walk_statements::function;
use fk_lower::LowerFault;
use fk_syntax::Item;
use std::alloc::Global;

/// A visitor that records how many values the running call has before each operation that it meets,
/// as long as there is room.
#[derive(Drop)]
pub(crate) struct Depths {
    pub(crate) told: Vec<u32>,
    /// The number of depths that are recorded.
    pub(crate) filled: usize,
    pub(crate) height: Height,
}

impl Depths {
    // Records the depth here, if there is room.
    fn tell(&mut self)
        ensures { self.new ≡ told_depth self.old }
    {
        let depth = self.height.depth();
        if self.filled < self.told.len() {
            self.told[self.filled] = depth;
            self.filled += 1;
        }
    }

    // Visits an item of a text. Each function begins without values.
    fn item(&mut self, known: &ProgramTables, whole: &Item)
        requires { IsSound known.now }
        ensures { (others : List ItemTree)
            → through_functions known.now self.old (f.functions_of (item_of whole.now ∷ others))
            ≡ through_functions known.now self.new (f.functions_of others) }
    {
        match whole {
            Item::Function(whole) => {
                if whole.body.is_some() {
                    self.height = Height::NOTHING;
                    function(known, self, whole);
                }
            }
            Item::Struct(_, _) | Item::Variables(_) => {}
        }
    }
}

impl Visitor for Depths {
    ghost use Rattle.fk_lower_text.specs.Telling.{depths_after, depths_mark};

    ghost after = { depths_after };

    ghost counts = { depths_mark };

    fn meet(&mut self, event: Event) {
        let height = self.height;
        if event.operation().is_some() {
            self.tell();
        }
        self.height = height.after(event);
    }

    fn mark(&self) -> Mark {
        self.height.mark()
    }
}

/// The number of values that the running call has before each operation of a text, in the order of
/// the text. `sites` is the number of its operations. It takes time and memory linear in the text.
///
/// # Errors
///
/// `Memory` if there isn't enough memory.
pub(crate) fn depths_of(
    alloc: Global,
    known: &ProgramTables,
    sites: u32,
) -> Result<Vec<u32>, LowerFault>
    requires sound { IsSound known.now }
    requires counted { sites ≡ length (sites_of_text known.now) }
    ensures depths { HaveOpenings known.now (functions_in known.now)
        → 2 * length (sites_of_text known.now) < 2 ^ 32
        → IfOk result (λ depths. depths.items ≡ d.depths_of known.now (functions_in known.now)) }
    ensures refused { IfErr result (λ fault. fault ≡ LowerFault.Memory) }
{
    let Ok(told) = vec![in alloc; 0; sites as usize] else {
        return Err(LowerFault::Memory);
    };
    let mut depths = Depths {
        told,
        filled: 0,
        height: Height::NOTHING,
    };
    for item in known.items {
        depths.item(known, item);
    }
    Ok(depths.told)
}
