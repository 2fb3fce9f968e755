//! Tests of the crates of rules, layouts, runs and lists.
#![tactic(auto)]

#[cfg(test)]
mod flat_list;
#[cfg(test)]
mod forms;
#[cfg(test)]
mod graph;
#[cfg(test)]
mod kept;
#[cfg(test)]
mod lookup;
#[cfg(test)]
mod lower;
#[cfg(test)]
mod opening;
#[cfg(test)]
mod operation;
#[cfg(test)]
mod references;
#[cfg(test)]
mod rules;
#[cfg(test)]
mod signs;
#[cfg(test)]
mod space;
#[cfg(test)]
mod store;
#[cfg(test)]
mod tree;
