//! Lists of tokens that are being read: a list, and the body of a macro with its arguments.
ghost use Rattle.std.specs.Prelude.{◌≡◌, [], ◌∷◌, ◌==◌, length, MatchOption, IfOk, IsTrue};
ghost use Rattle.texml_input.specs.Put.{argument, put_code, left_of};

use std::alloc::AllocError;
use std::marker::Model;
use texml_token::{Token, Tokens};

// A list, and how many of its tokens were read.
#[derive(Debug, Drop)]
pub struct Part {
    tokens: Tokens,
    at: usize,
}

impl Model for Part {
    ghost use Rattle.std.specs.Prelude.{List, drop};
    ghost use Rattle.texml_token.specs.declared.tokens.Token.{Token};

    ghost Value = { List Token };

    ghost view = { λ p. drop p.at p.tokens };
}

impl Part {
    // The whole of a list, whose tokens are shared.
    pub fn new(tokens: &Tokens) -> Result<Part, AllocError>
        ensures { IfOk result (λ p. p ≡ tokens.now) }
    {
        Ok(Part {
            tokens: tokens.clone()?,
            at: 0,
        })
    }

    // Whether nothing is left.
    pub fn is_empty(&self) -> bool
        ensures { result ≡ (length self.now == 0) }
    {
        self.at >= self.tokens.as_slice().len()
    }

    // Takes the next token.
    pub fn next(&mut self) -> Option<Token>
        ensures { MatchOption result ((self.old ≡ []) × (self.new ≡ [])) (λ t. self.old ≡ t ∷ self.new) }
    {
        if self.at >= self.tokens.as_slice().len() {
            return None;
        }
        let token = self.tokens.as_slice()[self.at];
        self.at += 1;
        Some(token)
    }
}

// How many tokens of the body of a macro were read; the number of the argument that is being read, or 0, and how many of its
// tokens were read.
#[derive(Clone, Copy, Debug)]
pub struct Progress {
    pub at: usize,
    pub slot: u8,
    pub read: usize,
}

// The body of a macro with its arguments, of which some was read.
#[derive(Debug, Drop)]
pub struct Expansion {
    body: Tokens,
    args: Vec<Tokens>,
    progress: Progress,
}

impl Model for Expansion {
    ghost use Rattle.std.specs.Prelude.{List};
    ghost use Rattle.texml_token.specs.declared.tokens.Token.{Token};
    ghost use Rattle.texml_input.specs.Put.{left_of};

    ghost Value = { List Token };

    ghost view = { λ m. left_of m.args.items m.body m.progress.at m.progress.slot m.progress.read };
}

impl Expansion {
    // The whole of a body, whose tokens are shared, as are those of the arguments.
    pub fn new(body: &Tokens, args: Vec<Tokens>) -> Result<Expansion, AllocError>
        ensures { IfOk result (λ m. m ≡ put_code args.items body.now) }
    {
        Ok(Expansion {
            body: body.clone()?,
            args,
            progress: Progress {
                at: 0,
                slot: 0,
                read: 0,
            },
        })
    }

    // Whether nothing is left of the body, nor of the argument that is being read.
    pub fn is_empty(&self) -> bool
        ensures { IsTrue result → self.now ≡ [] }
    {
        let progress = self.progress;
        progress.at >= self.body.as_slice().len()
            && progress.read >= argument(&self.args, progress.slot).len()
    }

    // Takes the next token. The place of a parameter is read from its argument.
    pub fn next(&mut self) -> Option<Token>
        ensures { MatchOption result ((self.old ≡ []) × (self.new ≡ [])) (λ t. self.old ≡ t ∷ self.new) }
    {
        next_token(self.body.as_slice(), &self.args, &mut self.progress)
    }
}

// Takes the next token of a body with its arguments.
#[tactic(auto, using(crate::proofs::Reading::reading))]
fn next_token(body: &[Token], args: &[Tokens], progress: &mut Progress) -> Option<Token>
    ensures { MatchOption result
        ((left_of args.now body.now progress.old.at progress.old.slot progress.old.read ≡ []) × (left_of args.now body.now progress.new.at progress.new.slot progress.new.read ≡ []))
        (λ t. left_of args.now body.now progress.old.at progress.old.slot progress.old.read ≡ t ∷ left_of args.now body.now progress.new.at progress.new.slot progress.new.read) }
{
    loop {
        let argument = argument(args, progress.slot);
        if progress.read < argument.len() {
            let token = argument[progress.read];
            progress.read += 1;
            return Some(token);
        }
        if progress.at >= body.len() {
            return None;
        }
        let token = body[progress.at];
        progress.at += 1;
        match token {
            Token::Param(slot) => {
                progress.slot = slot;
                progress.read = 0;
            }
            token => return Some(token),
        }
    }
}

// The argument of a number, from 1 on.
fn argument(args: &[Tokens], slot: u8) -> &[Token]
    ensures { result.now ≡ argument args.now slot }
{
    if slot == 0 {
        return &[];
    }
    match args.get(usize::from(slot) - 1) {
        None => &[],
        Some(list) => list.as_slice(),
    }
}
