//! Numbers, dimensions, glue and keywords, read one token after the other.
//!
//! A scanner is fed looks, each a token with the quantity that it begins, until it has decided. The grammars of
//! `specs/` read lists of looks. Contract: what a scanner is stands for what its grammar makes of the looks that
//! are still to come, and each answer says what the grammar says: that it needs more, or what it reads and how
//! many of the last looks aren't part of it. `looked_at` makes the look of a token. It stands on texml_fixed,
//! texml_token and texml_scope, and takes no memory.
#![tactic(auto)]

mod characters;
mod glue;
mod int;
mod keyword;
mod looked;
mod looks;
mod measure;
mod steps;
mod units;

pub use glue::GlueScan;
pub use int::IntScan;
pub use keyword::KeywordScan;
pub use looked::looked_at;
pub use looks::{Held, Look, Quantity};
pub use measure::DimenScan;
pub use steps::{Scan, ScanFault, ScanStep};
