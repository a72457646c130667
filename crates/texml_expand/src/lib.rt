//! The engine that reads and expands tokens.
//!
//! An engine holds what names mean and what is still to be read. Together with its files it stands for a state of the definitions in specs/, in
//! which a name is its text. The contract in a sentence: each call takes it from a state to the state and the value that a
//! definition gives and tells of exactly the expansions that the definition adds, or stops it for a reason that the contract
//! names, and a stopped engine answers its stop from then on. That the definitions have one answer in each state is a law
//! of its own (laws.rt).
//! It stands on texml_base, texml_fixed, texml_token, texml_text, texml_match, texml_scope, texml_cond, texml_scan, texml_input and texml_watch.
#![tactic(auto)]

mod call;
mod conditional;
mod engine;
mod feeding;
mod gathering;
mod group;
mod internal;
mod job;
mod laws;
mod machine;
mod printed;
mod stop;
mod variables;

pub use engine::{ESCAPE, Engine, Looked, means_space};
pub use feeding::{Feeder, Verdict};
pub use internal::Internal;
pub use laws::{always_decides, decides_once, readings_need_no_bound};
pub use stop::Stop;
pub use texml_input::Read;
pub use variables::{Index, LAST_REGISTER, Variable, index_of, key_of, variable_at};
