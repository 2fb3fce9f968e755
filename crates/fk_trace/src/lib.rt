//! Traces: what the harts of a machine commit in each cycle, as lines of text.
//!
//! The first two lines are `fork95 trace 1` and `harts P`, and the last one is `end T`, for T
//! cycles. A cycle t in which some hart commits has a line `c t`, in which ` A-B*C` tells that each
//! of the harts A to B commits C operations. For each event that occurs in the cycle a line
//! `g t NAME` follows, in which ` A-B` tells that each of the harts A to B has the event. Ranges
//! are the longest ones. The lines are made while the machine runs, and nothing of them is kept.
#![tactic(auto)]

mod column;
mod hart_range;
pub mod laws;
mod line;
mod ranges;
mod short_text;
mod trace;

pub use trace::run_trace;
