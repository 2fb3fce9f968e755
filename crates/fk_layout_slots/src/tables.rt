//! What the layout of a text consists of.

use fk_meaning_forms::{Region, Slot};

/// How much a function takes by itself.
#[derive(Clone, Copy, PartialEq, Eq, Debug)]
pub struct Own {
    /// Private places: one for each parameter, also for an `sh` one, and one for each private
    /// variable.
    pub privates: u32,
    /// The words of its own group frame. If it has too many, the count is 1 above the greatest
    /// index.
    pub words: u32,
}

/// Where the words of a text lie.
#[derive(Drop)]
pub struct Slots {
    /// A slot for each variable, parameter and function, in the order of their names.
    pub slots: Vec<Slot>,
    /// The group frames that have words, in the order of their tokens.
    pub regions: Vec<Region>,
    /// How much each function with a body takes by itself, in the order of the text.
    pub owns: Vec<Own>,
}
