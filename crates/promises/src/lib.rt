//! Promises to users, in their words. Each function only calls the libraries, and its clauses are
//! about the table that is passed and the result. So a reader has to believe only the definitions
//! in these clauses. For example, the definitions don't state how the widths of columns are found.
#![tactic(auto)]

pub mod harmless;
pub mod headline;
pub mod kept;
pub mod laws;
pub mod others;
pub mod straight;
pub mod width;
