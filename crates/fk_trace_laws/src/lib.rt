//! Laws of traces: the trace of a run is a certificate, which can be checked against the program
//! alone.
#![tactic(auto)]

pub mod laws;
