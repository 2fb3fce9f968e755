//! Tests of a whole call over a store, a source and sinks that never fail, and of replays.
#![tactic(auto)]

#[cfg(test)]
mod replays;
#[cfg(test)]
mod tests;
