//! Promises to users of `csvtable`, in the words of a user. Each function calls the library as the
//! program does, and its one clause is about the result of the call. A reader needs to trust only
//! the definitions of this clause. Records are *expanded* if each of them is drawn as a table of
//! its own.
#![tactic(auto)]

pub mod harmless;
pub mod kept;
pub mod markdown;
pub mod straight;
pub mod width;
