//! The syntax trees of Fork95, which all parts of its front end use.
#![tactic(auto)]

pub mod expression;
pub mod facts;
mod nodes;
pub mod place;
pub mod program;
pub mod sign;

pub use expression::{Base, Expr, Link, Suffix, TypeName};
pub use facts::{CheckFault, Facts, Kind, Note};
pub use nodes::Index;
pub use place::{Name, Place, Spot};
pub use program::{Declared, Function, Item, Mode, Program, Stmt};
pub use sign::Sign;
