//! Callers of the libraries, each with a claim that is proved from their contracts. Nothing depends
//! on this crate.
#![tactic(auto)]

pub mod uses;
