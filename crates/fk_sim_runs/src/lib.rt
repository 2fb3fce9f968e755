//! Machines follow the core runs of lists whose groups split: which operation each processor
//! and each group does next, which steps a round takes, and so, from the opening on and in the pace
//! of lawful schedules, whole runs.
//!
//! The definitions are in `specs/`, and the laws proved of them in `laws`. They rest on the law of
//! blocks of groups, and know no code.
#![tactic(auto)]

pub mod laws;
