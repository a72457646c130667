//! Parameter texts, and bodies with parameters in them.

ghost use Rattle.std.specs.Prelude.{◌≡◌, ◌≤◌, ◌+◌, ℕ, length, [], true, false, None, IfOk, IfSome, option_map};
ghost use Rattle.texml_token.specs.Numbers.{Table, token_at, tokens_at, TokenWithin, TokensWithin, BodyTokenWithin, BodyWithin, OptionWithin};
ghost use Rattle.texml_expand.specs.Feeding.{IsFed};
ghost use Rattle.texml_assign.specs.Parameters.{digit as spec_digit, is_number, place, marked_token as spec_marked_token, body_of as spec_body_of};
ghost use Rattle.texml_assign.specs.TextFeeding.{judge_text};

use std::alloc::{AllocError, Global};
use std::marker::Model;
use std::mem;
use texml_expand::{Feeder, Verdict};
use texml_token::{Names, Piece, Pieces, Token, Tokens, category, fault_code};

// The code of the digit 0.
const ZERO: u32 = 48;

// The code of the digit 9.
const NINE: u32 = 57;

/// A parameter text, by what a token and a list of pieces is: how many parameters it has, its pieces, and the brace that
/// ends it where that is its last piece too.
#[derive(Debug, Drop)]
pub struct HeadOf<T, P> {
    pub slots: u8,
    pub pieces: P,
    pub brace: Option<T>,
}

/// A parameter text of the code, whose names are numbers.
pub type Head = HeadOf<Token, Pieces>;

/// The digit that a token is: a character from 0 to 9 of category 12.
pub fn digit(token: Token) -> Option<u8>
    ensures is { (texts : Table) → result ≡ spec_digit (token_at texts token) }
    ensures few { IfSome result (λ number. number ≤ 9) }
{
    match token {
        Token::Char(code, found) if found == category::OTHER && ZERO <= code && code <= NINE => {
            Some((code - ZERO) as u8)
        }
        _ => None,
    }
}

// Whether a token is the digit of this number.
fn has_number(token: Token, number: u8) -> bool
    ensures { (texts : Table) → result ≡ is_number number (spec_digit (token_at texts token)) }
{
    match digit(token) {
        Some(found) => found == number,
        None => false,
    }
}

/// A parameter text that is read token by token, up to the brace behind it.
#[derive(Drop)]
pub struct ParameterText {
    alloc: Global,
    pieces: Pieces,
    slots: u8,
    marked: bool,
}

impl Model for ParameterText {
    ghost use Rattle.std.specs.Prelude.{◌≤◌};
    ghost use Rattle.texml_assign.specs.TextFeeding.{TextSoFar};

    ghost Value = { TextSoFar };

    ghost view = { λ t. record { pieces = t.pieces; slots = t.slots; marked = t.marked } };

    ghost invariant = { λ t. t.slots ≤ 9 };
}

impl ParameterText {
    /// A parameter text of which nothing was read. It takes no memory.
    pub fn new(alloc: Global) -> ParameterText
        ensures { result ≡ record { pieces = []; slots = 0; marked = false } }
    {
        ParameterText {
            alloc,
            pieces: Pieces::new(alloc),
            slots: 0,
            marked: false,
        }
    }

    // The pieces that were read.
    fn taken(&mut self) -> Pieces
        ensures { result ≡ self.old.pieces }
    {
        mem::replace(&mut self.pieces, Pieces::new(self.alloc))
    }

    // Takes the token behind a parameter character.
    fn feed_marked(&mut self, token: Token) -> Result<Verdict<Head>, AllocError>
        requires { self.old.marked ≡ true }
        ensures { IfOk result (λ verdict. (texts : Table) → IsFed (judge_text self.old) token verdict (judge_text self.new) texts) }
    {
        if token.has_category(category::BEGIN_GROUP) {
            self.pieces.push(Piece::Just(token))?;
            return Ok(Verdict::Yields(Head {
                slots: self.slots,
                pieces: self.taken(),
                brace: Some(token),
            }));
        }
        let number = self.slots + 1;
        if !has_number(token, number) {
            return Ok(Verdict::Refuses(fault_code::BAD_PARAMETER));
        }
        self.pieces.push(Piece::Slot(number))?;
        self.slots = number;
        self.marked = false;
        Ok(Verdict::TooShort)
    }

    // Takes a token that has no parameter character before it.
    fn feed_plain(&mut self, token: Token) -> Result<Verdict<Head>, AllocError>
        requires { self.old.marked ≡ false }
        ensures { IfOk result (λ verdict. (texts : Table) → IsFed (judge_text self.old) token verdict (judge_text self.new) texts) }
    {
        if token.has_category(category::PARAMETER) {
            self.marked = true;
            return Ok(Verdict::TooShort);
        }
        if token.has_category(category::BEGIN_GROUP) {
            return Ok(Verdict::Yields(Head {
                slots: self.slots,
                pieces: self.taken(),
                brace: None,
            }));
        }
        if token.has_category(category::END_GROUP) {
            return Ok(Verdict::Refuses(fault_code::MISSING_BRACE));
        }
        self.pieces.push(Piece::Just(token))?;
        Ok(Verdict::TooShort)
    }
}

impl Feeder<Head> for ParameterText {
    ghost use Rattle.texml_assign.specs.TextFeeding.{judge_text as judge_of};

    ghost judge = { judge_of };

    fn feed(&mut self, token: Token, _names: &Names) -> Result<Verdict<Head>, AllocError> {
        if self.marked {
            return self.feed_marked(token);
        }
        self.feed_plain(token)
    }
}

// The place of a parameter, where there are so many and a token has this number.
fn place(slots: u8, number: Option<u8>) -> Option<Token>
    ensures is { (texts : Table) → option_map (token_at texts) result ≡ place slots number }
    ensures within { (count : ℕ) → IfSome result (BodyTokenWithin count slots) }
{
    match number {
        Some(number) if 1 <= number && number <= slots => Some(Token::Param(number)),
        _ => None,
    }
}

// What a parameter character and the token behind it are in a body.
fn marked_token(slots: u8, token: Token) -> Option<Token>
    ensures is { (texts : Table) → option_map (token_at texts) result ≡ spec_marked_token slots (token_at texts token) }
    ensures within { (count : ℕ) → TokenWithin count token → IfSome result (BodyTokenWithin count slots) }
{
    if token.has_category(category::PARAMETER) {
        return Some(token);
    }
    place(slots, digit(token))
}

/// The body that tokens are for a macro with so many parameters, or `None` where something else stands behind a parameter
/// character than another one or the number of a parameter.
///
/// # Errors
///
/// `AllocError` where memory was refused.
pub fn body_of(alloc: Global, slots: u8, list: &Tokens) -> Result<Option<Tokens>, AllocError>
    ensures is { IfOk result (λ body. (texts : Table) → option_map (tokens_at texts) body ≡ spec_body_of slots (tokens_at texts list.now)) }
    ensures within { (count : ℕ) → TokensWithin count list.now → IfOk result (OptionWithin (BodyWithin count slots)) }
{
    let mut body = Tokens::new(alloc);
    let mut marked = false;
    for token in list.as_slice() {
        if marked {
            match marked_token(slots, *token) {
                Some(found) => body.push(found)?,
                None => return Ok(None),
            }
            marked = false;
        } else if token.has_category(category::PARAMETER) {
            marked = true;
        } else {
            body.push(*token)?;
        }
    }
    if marked {
        return Ok(None);
    }
    Ok(Some(body))
}
