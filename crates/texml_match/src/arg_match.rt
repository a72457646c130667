//! Reading arguments token by token.

ghost use Rattle.std.specs.Prelude.{◌≡◌, ◌≤◌, ◌<◌, ◌+◌, ◌↔◌, IsTrue, slice_index_or, Some, false, List, [], ◌∷◌, ◌++◌, ℕ, length, IfOk, IfSome, OnOk, option_map};
ghost use Rattle.texml_token.specs.declared.pieces.TheConstants.{MOST_PARAMETERS};
ghost use Rattle.texml_token.specs.Token.{Token as TokenText};
ghost use Rattle.texml_token.specs.declared.tokens.Token.{Token as TokenCode};
ghost use Rattle.texml_token.specs.Numbers.{Table, token_at, tokens_at, Numbered, TokenWithin, TokensWithin};
ghost use Rattle.texml_match.specs.Groups.{open_behind};
ghost use Rattle.texml_match.specs.Reading.{Wants};
ghost use Rattle.texml_match.specs.Shape.{Shape as ShapeOf, ShapeWithin, shape_at, is_empty};
ghost use Rattle.texml_match.specs.Arguments.{argument_in, reading};
ghost use Rattle.texml_match.specs.Left.{nothing_matched, left, Says, Reads, Stands, OnMore, ArgsWithin, is_more, next_delimiter};
ghost use Rattle.texml_match.specs.Taking.{Takes, skips};

use crate::args::Args;
use crate::argument::{argument_in, runs_away};
use crate::groups::behind_token;
use crate::shape::Shape;
use std::alloc::{AllocError, Global};
use std::marker::Model;
use std::mem;
use texml_token::{Names, Token, Tokens, category};

/// Why what stands behind a macro can't be its arguments.
#[derive(Clone, Copy, Debug, PartialEq, Eq)]
pub enum MatchFault {
    /// Another token than the one that must stand before the first argument.
    Mismatch,
    /// `\par` in an argument where it may not stand.
    RunawayPar,
    /// The end of a group in an argument, where none has begun there.
    ExtraBrace,
}

// Why a token isn't taken.
#[derive(Clone, Copy, Debug, PartialEq, Eq)]
enum Refusal {
    Fault(MatchFault),
    NoMemory,
}

impl From<AllocError> for Refusal {
    ghost use Rattle.std.specs.Prelude.{◌≡◌};
    ghost use Rattle.texml_match.specs.declared.arg_match.Refusal.TheVariants.{NoMemory};

    ghost from_gives = { λ _ refusal. refusal ≡ NoMemory };

    fn from(_error: AllocError) -> Refusal {
        Refusal::NoMemory
    }
}

/// What a token brings.
#[derive(Debug, Drop)]
pub enum Fed {
    /// More tokens are wanted.
    More,
    /// All arguments are read.
    All(Args),
    /// The tokens can't be the arguments.
    Fault(MatchFault),
    /// There is no memory.
    NoMemory,
}

/// Reads the arguments of a macro, a token at a time.
#[derive(Debug, Drop)]
pub struct ArgMatch {
    alloc: Global,
    // How many tokens before the first argument are read.
    prefix: usize,
    args: Args,
    // The tokens of the argument that is being read, and how many groups are open in them; none where one ends that
    // hasn't begun.
    list: Vec<Token>,
    depth: Option<usize>,
}

impl Model for ArgMatch {
    ghost use Rattle.std.specs.Prelude.{◌≡◌, ◌≤◌, length, IfSome};
    ghost use Rattle.texml_token.specs.Token.{Token as TokenText};
    ghost use Rattle.texml_token.specs.declared.tokens.Token.{Token as TokenCode};
    ghost use Rattle.texml_token.specs.Numbers.{Table, tokens_at};
    ghost use Rattle.texml_match.specs.Groups.{open_behind};
    ghost use Rattle.texml_match.specs.Left.{Matched};

    ghost Value = { Matched };

    ghost view = { λ m. record { prefix = m.prefix; args = m.args; list = m.list.items } };

    ghost invariant = { λ m. ((texts : Table) → open_behind 0 (tokens_at texts m.list.items) ≡ m.depth) × IfSome m.depth (λ n. n ≤ length m.list.items) };
}

impl ArgMatch {
    /// Nothing is read yet, and all of any shape is left.
    pub fn new(alloc: Global) -> ArgMatch
        ensures nothing { result ≡ nothing_matched }
        ensures whole { (texts : Table) (shape : ShapeOf TokenCode) (more : List TokenText) → left texts shape result more ≡ reading (shape_at texts shape) more }
        ensures reads { (texts : Table) (shape : ShapeOf TokenCode) → Numbered texts → ShapeWithin (length texts) shape → is_empty shape ≡ false → Reads texts shape result }
    {
        ArgMatch {
            alloc,
            prefix: 0,
            args: Args::new(alloc),
            list: Vec::new(alloc),
            depth: Some(0),
        }
    }

    /// Takes a token that stands behind those taken before; `shape` is the same at each call. The arguments are
    /// all there, or there is a fault, at the first token that decides it. Then, and where there is no memory, it
    /// takes no more.
    pub fn feed(&mut self, shape: &Shape, token: Token, names: &Names) -> Fed
        requires reads { Reads names.now shape.now self.old }
        requires within { TokenWithin (length names.now) token }
        ensures says { Says names.now result (left names.now shape.now self.old) (left names.now shape.now self.new) (token_at names.now token) }
        ensures reads { OnMore result (Reads names.now shape.now self.new) }
        ensures wants { OnMore result (left names.now shape.now self.new [] ≡ Wants) }
        ensures given { ArgsWithin (length names.now) result }
    {
        match self.take(shape, token, names) {
            Err(Refusal::Fault(fault)) => Fed::Fault(fault),
            Err(Refusal::NoMemory) => Fed::NoMemory,
            Ok(()) => {
                if self.is_more(shape) {
                    return Fed::More;
                }
                Fed::All(self.take_args())
            }
        }
    }

    // Takes a token.
    fn take(&mut self, shape: &Shape, token: Token, names: &Names) -> Result<(), Refusal>
        requires reads { Reads names.now shape.now self.old }
        requires within { TokenWithin (length names.now) token }
        ensures takes { Takes result (left names.now shape.now self.old) (left names.now shape.now self.new) (token_at names.now token) }
        ensures stands { OnOk result (Stands names.now shape.now self.new) }
    {
        if self.prefix < shape.prefix().len() {
            self.take_prefix(shape, token, names)
        } else {
            self.take_argument(shape, token, names)
        }
    }

    // Takes a token before the first argument.
    fn take_prefix(&mut self, shape: &Shape, token: Token, names: &Names) -> Result<(), Refusal>
        requires reads { Reads names.now shape.now self.old }
        requires within { TokenWithin (length names.now) token }
        requires before { self.old.prefix < length shape.now.prefix }
        ensures takes { Takes result (left names.now shape.now self.old) (left names.now shape.now self.new) (token_at names.now token) }
        ensures stands { OnOk result (Stands names.now shape.now self.new) }
    {
        if !self.expects(shape, token) {
            return Err(Refusal::Fault(MatchFault::Mismatch));
        }
        self.pass(shape);
        Ok(())
    }

    // Takes a token of an argument or its delimiter.
    fn take_argument(&mut self, shape: &Shape, token: Token, names: &Names) -> Result<(), Refusal>
        requires reads { Reads names.now shape.now self.old }
        requires within { TokenWithin (length names.now) token }
        requires behind { length shape.now.prefix ≤ self.old.prefix }
        ensures takes { Takes result (left names.now shape.now self.old) (left names.now shape.now self.new) (token_at names.now token) }
        ensures stands { OnOk result (Stands names.now shape.now self.new) }
    {
        let delimiter = self.next_delimiter(shape);
        if self.skips(delimiter, token) {
            return Ok(());
        }
        self.append(token)?;
        let Some(depth) = self.depth() else {
            return Err(Refusal::Fault(MatchFault::ExtraBrace));
        };
        if runs_away(shape.is_long(), delimiter, token, names) {
            return Err(Refusal::Fault(MatchFault::RunawayPar));
        }
        if let Some(argument) = self.argument(depth, delimiter)? {
            self.begin_next(argument);
        }
        Ok(())
    }

    // Whether this token must stand next before the first argument.
    fn expects(&self, shape: &Shape, token: Token) -> bool
        requires { self.now.prefix < length shape.now.prefix }
        ensures { IsTrue result ↔ (slice_index_or shape.now.prefix self.now.prefix token ≡ token) }
    {
        shape.prefix()[self.prefix] == token
    }

    // The delimiter of the argument that is read next.
    fn next_delimiter<'a>(&self, shape: &'a Shape) -> &'a [Token]
        requires { length self.now.args < length shape.now.delimiters }
        ensures { result.now ≡ next_delimiter shape.now self.now }
    {
        shape.delimiter(self.arguments())
    }

    // How many arguments are read.
    fn arguments(&self) -> usize
        ensures { result ≡ length self.now.args }
    {
        self.args.as_slice().len()
    }

    // Whether more is to be read.
    fn is_more(&self, shape: &Shape) -> bool
        ensures { result ≡ is_more shape.now self.now }
    {
        self.prefix < shape.prefix().len() || self.arguments() < shape.arguments()
    }

    // The arguments that are read, which it has no more.
    fn take_args(&mut self) -> Args
        ensures { result ≡ self.old.args }
    {
        mem::replace(&mut self.args, Args::new(self.alloc))
    }

    // One more token before the first argument is read.
    fn pass(&mut self, shape: &Shape)
        requires { self.old.prefix < length shape.now.prefix }
        ensures { self.new ≡ record { prefix = self.old.prefix + 1; args = self.old.args; list = self.old.list } }
    {
        prove!(self.prefix < shape.prefix().len());
        self.prefix += 1;
    }

    // Whether a token is a space before an argument without a delimiter.
    fn skips(&self, delimiter: &[Token], token: Token) -> bool
        ensures { (texts : Table) → result ≡ skips (tokens_at texts delimiter.now) (tokens_at texts self.now.list) (token_at texts token) }
    {
        self.list.is_empty() && delimiter.is_empty() && token.has_category(category::SPACE)
    }

    // How many groups are open in the argument; none where one ends that hasn't begun.
    fn depth(&self) -> Option<usize>
        ensures { (texts : Table) → open_behind 0 (tokens_at texts self.now.list) ≡ result }
    {
        self.depth
    }

    // Adds a token to the argument that is being read.
    fn append(&mut self, token: Token) -> Result<(), AllocError>
        ensures { OnOk result (self.new ≡ record { prefix = self.old.prefix; args = self.old.args; list = self.old.list ++ token ∷ [] }) }
    {
        self.list.push(token)?;
        if let Some(depth) = self.depth {
            prove!(depth < self.list.len());
            self.depth = behind_token(depth, token);
        }
        Ok(())
    }

    // The argument, if its tokens decide; so many groups are open in them.
    fn argument(&self, depth: usize, delimiter: &[Token]) -> Result<Option<Tokens>, AllocError>
        ensures is { (texts : Table) → Numbered texts → TokensWithin (length texts) delimiter.now → TokensWithin (length texts) self.now.list → open_behind 0 (tokens_at texts self.now.list) ≡ Some depth
            → IfOk result (λ found. option_map (tokens_at texts) found ≡ argument_in (tokens_at texts delimiter.now) (tokens_at texts self.now.list)) }
        ensures within { (count : ℕ) → TokensWithin count self.now.list → IfOk result (λ found. IfSome found (TokensWithin count)) }
    {
        match argument_in(self.list.as_slice(), depth, delimiter) {
            Some(argument) => Ok(Some(Tokens::from_slice(self.alloc, argument)?)),
            None => Ok(None),
        }
    }

    // An argument is read, and the next one begins.
    fn begin_next(&mut self, argument: Tokens)
        requires { length self.old.args < MOST_PARAMETERS }
        ensures { self.new ≡ record { prefix = self.old.prefix; args = self.old.args ++ argument ∷ []; list = [] } }
    {
        self.list.clear();
        self.depth = Some(0);
        self.args.push(argument);
    }
}
