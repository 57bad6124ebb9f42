//! Tests of the libraries, and of the promises about them, for facts that no clause states: above
//! all that calls succeed if there is memory. Expected values come from the rules or from other
//! programs. Nothing depends on this crate.
#![tactic(auto)]

#[cfg(test)]
mod parts;
#[cfg(test)]
mod run;
#[cfg(test)]
mod support;
#[cfg(test)]
mod table;
