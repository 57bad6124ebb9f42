//! Trials of the libraries' definitions: examples that the prover computes. The crate has no code,
//! and nothing depends on it.
#![tactic(auto)]
