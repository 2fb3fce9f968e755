//! Texts: the tree of a text, its facts and its layout, or the reason why it is refused.
#![tactic(auto)]

mod built;
mod global;
mod laid;
pub mod refusal;
mod text;

pub use built::{Built, built_text};
pub use fk_layout_globals::GlobalRow;
pub use global::find_global;
pub use refusal::Refusal;
