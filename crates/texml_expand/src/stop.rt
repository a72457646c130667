//! Why an engine has stopped.
use texml_token::Fault;

/// Why an engine has stopped.
#[derive(Debug, Drop)]
pub enum Stop {
    /// The first fault of the text.
    Tex(Fault),
    /// One expansion too many would begin: so many were begun.
    Limit(u64),
    /// The files failed.
    ReadFailed,
    /// Who is told of expansions failed.
    TellFailed,
    /// Memory was refused.
    NoMemory,
}
