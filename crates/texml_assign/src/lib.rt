//! The commands that change the world.
//!
//! A token that was fetched and means a command or a prefix is executed: its operands are read from left to right, and then
//! the world is changed. The contract in a sentence: `execute` takes an engine from a state to the state that a row of the
//! table of commands gives, with exactly the expansions on the way, or stops it for a reason that the row names, and does
//! nothing where the token means no command.
//! It stands on texml_base, texml_fixed, texml_token, texml_scope, texml_watch, texml_input and texml_expand.
#![tactic(auto)]

mod arithmetic;
mod assignments;
mod define;
mod executing;
mod fillers;
mod laws;
mod letters;
mod new_command;
mod new_if;
mod operands;
mod parameters;
mod sets;
mod short_names;
mod table;
mod targets;

pub use executing::{Executed, execute};
pub use laws::execution_decides;
pub use operands::{next_token, token_or_end};
pub use sets::{begin_group, end_group};
