//! The surroundings of a token.

ghost use Rattle.std.specs.Prelude.{◌≡◌};
ghost use Rattle.fk_sharing.specs.Around.{splits};
ghost use Rattle.fk_sharing.specs.Collected.{within, outside};

use fk_regions::Region;

/// What directly contains a part of a program, as far as sharing depends on it.
#[derive(Clone, Copy)]
pub enum Holder {
    /// The body of a function, a `start`, `fork`, `farm` or `seq`, with its region.
    Body(Region),
    /// A part of an `if`, with whether its condition is shared.
    Branch(bool),
    /// The body of a loop, with whether its condition is shared.
    Loop(bool),
}

/// What the rules need to know about the surroundings of a token.
#[derive(Clone, Copy)]
pub struct Around {
    pub region: Region,
    /// Whether the token is in a function.
    pub in_function: bool,
    /// Whether the token is in a private split.
    pub in_split: bool,
    /// Whether a `break` here leaves a private split, possibly that of its own loop.
    pub break_leaves: bool,
    /// Whether a `continue` here leaves a private split inside its loop.
    pub continue_leaves: bool,
}

/// Whether a group splits in a region at a condition. `shared` tells whether the condition is.
pub(crate) fn splits(region: Region, shared: bool) -> bool
    ensures { result ≡ splits region shared }
{
    match region {
        Region::Synchronous => !shared,
        Region::Asynchronous | Region::Neither => false,
    }
}

impl Around {
    /// The surroundings at file scope, where there is no holder.
    pub(crate) fn outside() -> Around
        ensures { result ≡ outside }
    {
        Around {
            region: Region::Neither,
            in_function: false,
            in_split: false,
            break_leaves: false,
            continue_leaves: false,
        }
    }

    /// The surroundings of the parts of a holder, whose own surroundings are `self`.
    pub(crate) fn within(self, holder: Holder) -> Around
        ensures { result ≡ within holder self }
    {
        match holder {
            Holder::Body(region) => Around {
                region,
                in_function: true,
                ..self
            },
            Holder::Branch(shared) => {
                let split = splits(self.region, shared);
                Around {
                    in_split: split || self.in_split,
                    break_leaves: split || self.break_leaves,
                    continue_leaves: split || self.continue_leaves,
                    ..self
                }
            }
            Holder::Loop(shared) => {
                let split = splits(self.region, shared);
                Around {
                    in_split: split || self.in_split,
                    break_leaves: split,
                    continue_leaves: false,
                    ..self
                }
            }
        }
    }
}
