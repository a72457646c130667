//! What happened at an expansion.
use texml_token::Bytes;

/// A completed expansion.
#[derive(Debug, Drop)]
pub struct Record {
    /// The spelling of the token that was expanded.
    pub token: Bytes,
    /// The shown list of the tokens that the expansion itself put back.
    pub put: Bytes,
    /// The name of the file that was opened, or nothing.
    pub file: Bytes,
}
