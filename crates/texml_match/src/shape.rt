//! What the parameter text of a macro asks for.

ghost use Rattle.std.specs.Prelude.{◌≡◌, ℕ, ◌∷◌, [], ◌<◌, length, slice_index_or, MatchOption, IfSome, IfOk};
ghost use Rattle.texml_match.specs.Shape.{ShapeWithin, shape_of, is_empty, leading, delimiters, pieces_left};
ghost use Rattle.texml_token.specs.Numbers.{ParamsWithin};

use std::alloc::{AllocError, Global};
use std::marker::Model;
use texml_token::{Params, Piece, Token, Tokens};

/// What is to be read behind a macro: the tokens before its first argument, those behind each argument, and
/// whether `\par` may stand in arguments.
#[derive(Debug, Drop)]
pub struct Shape {
    prefix: Tokens,
    delimiters: Vec<Tokens>,
    long: bool,
}

impl Model for Shape {
    ghost use Rattle.texml_token.specs.declared.tokens.Token.{Token};
    ghost use Rattle.texml_match.specs.Shape.{Shape as ShapeOf};

    ghost Value = { ShapeOf Token };

    ghost view = { λ s. record { prefix = s.prefix; delimiters = s.delimiters.items; long = s.long } };
}

impl Shape {
    /// The shape of a parameter text. Where that has a default, its first parameter isn't in the shape: the argument
    /// for that is read before. `\par` may stand in the arguments of a long macro.
    ///
    /// # Errors
    ///
    /// `AllocError` where there is no memory.
    pub fn new(alloc: Global, params: &Params, long: bool) -> Result<Shape, AllocError>
        ensures is { IfOk result (λ shape. shape ≡ shape_of long params.now) }
        ensures within { (count : ℕ) → ParamsWithin count params.now → IfOk result (ShapeWithin count) }
    {
        let pieces = pieces_left(params);
        Ok(Shape {
            prefix: leading(alloc, pieces)?,
            delimiters: delimiters(alloc, pieces)?,
            long,
        })
    }

    /// The shape of one argument with these tokens behind it, where nothing stands before it.
    ///
    /// # Errors
    ///
    /// `AllocError` where there is no memory.
    pub fn of_one(alloc: Global, delimiter: Tokens, long: bool) -> Result<Shape, AllocError>
        ensures { IfOk result (λ shape. shape ≡ record { prefix = []; delimiters = delimiter ∷ []; long = long }) }
    {
        let mut delimiters = Vec::new(alloc);
        delimiters.push(delimiter)?;
        Ok(Shape {
            prefix: Tokens::new(alloc),
            delimiters,
            long,
        })
    }

    /// Whether there is nothing to be read.
    pub fn is_empty(&self) -> bool
        ensures { result ≡ is_empty self.now }
    {
        self.prefix.as_slice().is_empty() && self.delimiters.is_empty()
    }

    /// The tokens before the first argument.
    pub(crate) fn prefix(&self) -> &[Token]
        ensures { result.now ≡ self.now.prefix }
    {
        self.prefix.as_slice()
    }

    /// How many arguments there are.
    pub(crate) fn arguments(&self) -> usize
        ensures { result ≡ length self.now.delimiters }
    {
        self.delimiters.len()
    }

    /// The tokens behind an argument, up to the next one.
    pub(crate) fn delimiter(&self, at: usize) -> &[Token]
        requires { at < length self.now.delimiters }
        ensures { result.now ≡ slice_index_or self.now.delimiters at [] }
    {
        self.delimiters[at].as_slice()
    }

    /// Whether `\par` may stand in arguments.
    pub(crate) fn is_long(&self) -> bool
        ensures { result ≡ self.now.long }
    {
        self.long
    }
}

// The pieces that are left where the first argument was read before.
fn pieces_left(params: &Params) -> &[Piece]
    ensures { result.now ≡ pieces_left params.now.default params.now.pieces }
{
    let pieces = params.pieces.as_slice();
    match (&params.default, pieces) {
        (Some(_), [_, rest @ ..]) => rest,
        _ => pieces,
    }
}

// The tokens before the next parameter.
fn leading(alloc: Global, pieces: &[Piece]) -> Result<Tokens, AllocError>
    ensures { IfOk result (λ list. list ≡ leading pieces.now) }
{
    let mut list = Tokens::new(alloc);
    let mut rest = pieces;
    while let [Piece::Just(token), behind @ ..] = rest {
        list.push(*token)?;
        rest = behind;
    }
    Ok(list)
}

// For each parameter the tokens behind it.
fn delimiters(alloc: Global, pieces: &[Piece]) -> Result<Vec<Tokens>, AllocError>
    ensures { IfOk result (λ lists. lists.items ≡ delimiters pieces.now) }
{
    let mut lists = Vec::new(alloc);
    let mut rest = pieces;
    while let Some(behind) = behind_slot(rest) {
        lists.push(leading(alloc, behind)?)?;
        rest = behind;
    }
    Ok(lists)
}

// The pieces behind the next parameter, if there is one.
fn behind_slot(pieces: &[Piece]) -> Option<&[Piece]>
    ensures next { MatchOption result (delimiters pieces.now ≡ []) (λ rest. delimiters pieces.now ≡ leading rest.now ∷ delimiters rest.now) }
    ensures shorter { IfSome result (λ rest. length rest.now < length pieces.now) }
{
    let mut rest = pieces;
    while let [piece, behind @ ..] = rest {
        if matches!(piece, Piece::Slot(_)) {
            return Some(behind);
        }
        rest = behind;
    }
    None
}
