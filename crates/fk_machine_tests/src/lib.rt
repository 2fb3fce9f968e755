//! Tests of the crates of the machine and of those below it.
#![tactic(auto)]

#[cfg(test)]
mod asm;
#[cfg(test)]
mod audit;
#[cfg(test)]
mod elf;
#[cfg(test)]
mod image;
#[cfg(test)]
mod input;
#[cfg(test)]
mod isa;
#[cfg(test)]
mod listing;
#[cfg(test)]
mod machine;
#[cfg(test)]
mod num;
#[cfg(test)]
mod ports;
#[cfg(test)]
mod refused;
