//! The name of the job.

ghost use Rattle.std.specs.Prelude.{◌≡◌, ℕ, IfOk, codes};
ghost use Rattle.std.specs.Str.{IsUtf8, chars};
ghost use Rattle.texml_token.specs.Numbers.{Table, tokens_at, TokensWithin};
ghost use Rattle.texml_expand.specs.Printed.{printed_tokens};
ghost use Rattle.texml_expand.specs.Expansion.{job_name, last_part as spec_last_part, without_end};

use crate::printed::printed_text;
use std::alloc::{AllocError, Global};
use std::marker::Model;
use texml_text::chars_of;
use texml_token::{Bytes, Tokens};

// The end of a file's name that the name of a job lacks.
const TEX: [char; 4] = ['.', 't', 'e', 'x'];

/// The name of the main file, which is UTF-8.
#[derive(Drop)]
pub(crate) struct Main {
    name: Bytes,
}

impl Model for Main {
    ghost use Rattle.std.specs.Prelude.{ℕ, List};
    ghost use Rattle.std.specs.Str.{IsUtf8};

    ghost Value = { List ℕ };

    ghost view = { λ m. m.name };

    ghost invariant = { λ m. IsUtf8 m.name };
}

impl Main {
    /// A main file of this name.
    pub(crate) fn new(name: Bytes) -> Main
        requires { IsUtf8 name }
        ensures { result ≡ name }
    {
        Main { name }
    }

    /// Its bytes.
    pub(crate) fn as_slice(&self) -> &[u8]
        ensures { result.now ≡ self.now }
    {
        self.name.as_slice()
    }

    /// The name of the job as it is written: what stands behind the last `/`, without a `.tex` at its end.
    pub(crate) fn job(&self, alloc: Global) -> Result<Tokens, AllocError>
        ensures is { IfOk result (λ list. (texts : Table) → tokens_at texts list ≡ printed_tokens (job_name (chars self.now))) }
        ensures within { IfOk result (λ list. (count : ℕ) → TokensWithin count list) }
    {
        match str::from_utf8(self.name.as_slice()) {
            Ok(text) => {
                let text = chars_of(alloc, text)?;
                printed_text(alloc, without_tex(last_part(&text)))
            }
            Err(_) => unreachable!(),
        }
    }
}

// What stands behind the last `/`.
fn last_part(text: &[char]) -> &[char]
    ensures { result.now ≡ spec_last_part text.now }
{
    let mut start = 0;
    for (place, c) in text.iter().enumerate() {
        if *c == '/' {
            start = place + 1;
        }
    }
    &text[start..]
}

// A text without `.tex` at its end.
fn without_tex(text: &[char]) -> &[char]
    ensures { result.now ≡ without_end (codes ".tex") text.now }
{
    if text.ends_with(&TEX) {
        &text[..text.len() - TEX.len()]
    } else {
        text
    }
}
