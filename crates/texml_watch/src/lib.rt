//! What is told of completed expansions, and who is told.
//!
//! The contract in a sentence: a trait says what a teller makes of each record that it hears, whole or in part,
//! `Lines` writes exactly the trace line of each record to a sink or a prefix of it where the sink failed, and `Nobody`
//! wants no record. A teller's count of faults changes only where it failed. It stands on texml_base for sinks and on texml_token for lists of bytes.
#![tactic(auto)]

mod lines;
mod nobody;
mod record;
mod teller;

pub use lines::Lines;
pub use nobody::Nobody;
pub use record::Record;
pub use teller::Teller;
