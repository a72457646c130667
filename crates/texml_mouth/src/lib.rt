//! Turns the characters of one line into tokens, one at each call.
//!
//! A character gets its category at the call that reads it, by an object of the caller. The definitions
//! of `specs/` say what the line gives next: `Looked` how groups of carets are looked at, and `Mouth`
//! which token comes. Contract: `Mouth::next` gives exactly the token and the state behind it that `bites`
//! gives, or answers a character that may not stand there. It stands on `texml_token`.
#![tactic(auto)]

ghost use Rattle.std.specs.Prelude.{◌≡◌, ℕ, ◌+◌, ◌<◌, ◌≤◌, List, [], ◌∷◌, ◌++◌, length, drop, IsTrue, slice_index, Some, None, Ok, Err, MatchOption, IfSome, IfOk, OnOk, OnErr, option_to_list};
ghost use Rattle.std.specs.List.{All};
ghost use Rattle.std.specs.Char.{IsScalar};
ghost use Rattle.texml_token.specs.Numbers.{Table, token_at, TokenWithin, Extends, Numbered, with_text};
ghost use Rattle.texml_token.specs.Token.{Named};
ghost use Rattle.texml_mouth.specs.declared.LineState.{LineState};
ghost use Rattle.texml_mouth.specs.Looked.{settled, begins_hex, is_hex_digit, hex_value, turned};
ghost use Rattle.texml_mouth.specs.Mouth.{bites, bite, name, word, state_behind, line_end, Gives, Dry};
ghost use Rattle.texml_mouth.specs.Seen.{Bitten, answer_at, table_behind, AnswerWithin, fault_after};

use std::alloc::{AllocError, Global};
use std::marker::Model;
use texml_token::{Line, Names, Token, category};

// The code of a space token.
const SPACE: u32 = 32;

// The name that an empty line gives.
const PAR: [u32; 3] = [112, 97, 114];

/// Where in a line a mouth is: at its start, behind a token, or behind a blank or a word.
#[derive(Clone, Copy, Debug, PartialEq, Eq)]
pub enum LineState {
    NewLine,
    MidLine,
    SkippingBlanks,
}

/// Why there is no next token.
#[derive(Clone, Copy, Debug, PartialEq, Eq)]
pub enum MouthFault {
    /// A character of category 15, with its code.
    Invalid(u32),
    /// There is no memory for a name.
    NoMemory,
}

impl From<AllocError> for MouthFault {
    ghost use Rattle.std.specs.Prelude.{◌≡◌};
    ghost use Rattle.texml_mouth.specs.declared.MouthFault.TheVariants.{NoMemory};

    ghost from_gives = { λ _ fault. fault ≡ NoMemory };

    fn from(_error: AllocError) -> MouthFault {
        MouthFault::NoMemory
    }
}

/// The categories of characters, as they hold now.
pub trait Codes {
    /// The category of each code.
    ghost cats: { Self → ℕ → ℕ };

    /// The category of a character, by its code.
    fn category(&self, code: u32) -> u8
        ensures value { result ≡ cats self.now code }
        ensures below { result < 16 };
}

/// Reads the tokens of one line.
#[derive(Debug, Drop)]
pub struct Mouth {
    line: Line,
    // How many characters of the line are taken.
    place: usize,
    // A character that stands before the rest of the line, as it was looked at.
    front: Option<u32>,
    state: LineState,
    fault: Option<MouthFault>,
}

impl Model for Mouth {
    ghost use Rattle.texml_mouth.specs.Seen.{Seen};
    ghost use Rattle.texml_mouth.specs.Inside.{left, IsSound};

    ghost Value = { Seen };

    ghost view = { λ m. record { spot = record { state = m.state; tail = left m.front m.line m.place }; fault = m.fault } };

    ghost invariant = { λ m. IsSound m.front m.line m.place m.fault };
}

impl Mouth {
    /// A mouth at the start of a line.
    pub fn new(line: Line) -> Mouth
        requires { All IsScalar line }
        ensures { result ≡ record { spot = record { state = LineState.NewLine; tail = line }; fault = None } }
    {
        Mouth {
            line,
            place: 0,
            front: None,
            state: LineState::NewLine,
            fault: None,
        }
    }

    /// The next token of the line, or None at its end. A name is given its number in `names`.
    ///
    /// The characters are looked at with the categories that `codes` has at this call (The TeXbook,
    /// chapters 7 and 8). The text behind a token is left for later calls, but the character that ends
    /// a word was looked at with it and stays as it was seen.
    ///
    /// # Errors
    ///
    /// - `Invalid` with the code of a character of category 15, where it would begin a token.
    /// - `NoMemory` where there is no memory for a name. The names are then as before.
    ///
    /// After an error the mouth stays as it is, and answers that error from then on.
    pub fn next<C: Codes>(
        &mut self,
        alloc: Global,
        codes: &C,
        names: &mut Names,
    ) -> Result<Option<Token>, MouthFault>
        ensures bites { self.old.fault ≡ None → Bitten (bites (C.cats codes.now) self.old.spot) (answer_at names.new result) self.new.spot }
        ensures fault { self.old.fault ≡ None → self.new.fault ≡ fault_after result }
        ensures stays { IfSome self.old.fault (λ fault. (result ≡ Err fault) × (self.new ≡ self.old)) }

        // Each token takes a character at least.
        ensures lower { IfOk result (λ o. length self.new.spot.tail + length (option_to_list o) ≤ length self.old.spot.tail) }
        ensures shorter { length self.new.spot.tail ≤ length self.old.spot.tail }

        ensures names { names.new ≡ table_behind names.old (answer_at names.new result) }
        ensures grows { Extends names.old names.new }
        ensures numbered { Numbered names.new }
        ensures given { AnswerWithin (length names.new) result }
    {
        let answer = match self.fault {
            Some(fault) => Err(fault),
            None => self.bite(alloc, codes, names),
        };
        // The count brings with it that the texts of the table are numbered, where no name was interned.
        let _given = names.given();
        if let Err(fault) = answer {
            self.fault = Some(fault);
        }
        answer
    }

    /// The next token of the line, where its character is one by itself: no character is looked at behind it, and no name is read or made.
    /// Where it isn't so, or can't be told at once, the answer is None, and nothing changes. `next` gives the same token.
    #[tactic(auto, using(crate::proofs::Biting::plain_step))]
    pub fn next_plain<C: Codes>(&mut self, codes: &C) -> Option<Token>
        ensures bites { IfSome result (λ t. (texts : Table) → bites (C.cats codes.now) self.old.spot ≡ Gives (token_at texts t) self.new.spot) }
        ensures none { MatchOption result (self.new ≡ self.old) (λ _. Unit {0}) }
        ensures fault { self.new.fault ≡ self.old.fault }
        ensures lower { length self.new.spot.tail + length (option_to_list result) ≤ length self.old.spot.tail }
        ensures given { IfSome result (TokenWithin 0) }
    {
        let c = self.ahead()?;
        match codes.category(c) {
            category::ESCAPE
            | category::END_OF_LINE
            | category::SUPERSCRIPT
            | category::IGNORED
            | category::ACTIVE
            | category::COMMENT
            | category::INVALID => None,
            category::SPACE => {
                if self.state() != LineState::MidLine {
                    return None;
                }
                self.pass();
                self.go(LineState::SkippingBlanks);
                Some(Token::Char(SPACE, category::SPACE))
            }
            category => {
                self.pass();
                self.go(LineState::MidLine);
                Some(Token::Char(c, category))
            }
        }
    }

    // The next token, where no fault is kept.
    fn bite<C: Codes>(
        &mut self,
        alloc: Global,
        codes: &C,
        names: &mut Names,
    ) -> Result<Option<Token>, MouthFault>
        ensures bites { Bitten (bites (C.cats codes.now) self.old.spot) (answer_at names.new result) self.new.spot }
        ensures fault { self.new.fault ≡ self.old.fault }
        ensures lower { IfOk result (λ o. length self.new.spot.tail + length (option_to_list o) ≤ length self.old.spot.tail) }
        ensures shorter { length self.new.spot.tail ≤ length self.old.spot.tail }
        ensures names { names.new ≡ table_behind names.old (answer_at names.new result) }
        ensures grows { Extends names.old names.new }
        ensures given { AnswerWithin (length names.new) result }
    {
        while let Some(c) = self.take(codes) {
            match codes.category(c) {
                category::ESCAPE => return self.name(alloc, codes, names),
                category::END_OF_LINE => return self.line_end(alloc, names),
                category::IGNORED => {}
                category::SPACE => {
                    if self.state() == LineState::MidLine {
                        self.go(LineState::SkippingBlanks);
                        return Ok(Some(Token::Char(SPACE, category::SPACE)));
                    }
                }
                category::ACTIVE => {
                    self.go(LineState::MidLine);
                    return Ok(Some(Token::Active(c)));
                }
                category::COMMENT => {
                    self.skip();
                    return Ok(None);
                }
                category::INVALID => return Err(MouthFault::Invalid(c)),
                category => {
                    self.go(LineState::MidLine);
                    return Ok(Some(Token::Char(c, category)));
                }
            }
        }
        Ok(None)
    }

    // The name behind an escape character.
    fn name<C: Codes>(
        &mut self,
        alloc: Global,
        codes: &C,
        names: &mut Names,
    ) -> Result<Option<Token>, MouthFault>
        ensures bites { Bitten (name (C.cats codes.now) self.old.spot.tail) (answer_at names.new result) self.new.spot }
        ensures fault { self.new.fault ≡ self.old.fault }
        ensures shorter { length self.new.spot.tail ≤ length self.old.spot.tail }
        ensures names { names.new ≡ table_behind names.old (answer_at names.new result) }
        ensures grows { Extends names.old names.new }
        ensures given { AnswerWithin (length names.new) result }
    {
        let Some(c) = self.take(codes) else {
            self.go(LineState::SkippingBlanks);
            return Ok(Some(named(alloc, names, &[])?));
        };
        match codes.category(c) {
            category::LETTER => {
                let mut text = Line::from_slice(alloc, &[c])?;
                self.take_letters(codes, &mut text)?;
                self.go(LineState::SkippingBlanks);
                Ok(Some(intern(names, &text)?))
            }
            category => {
                self.go(state_behind(category));
                Ok(Some(named(alloc, names, &[c])?))
            }
        }
    }

    // Appends the longest word at the front to a text.
    fn take_letters<C: Codes>(&mut self, codes: &C, text: &mut Line) -> Result<(), AllocError>
        requires { All IsScalar text.old }
        ensures letters { OnOk result (text.new ≡ text.old ++ (word (C.cats codes.now) self.old.spot.tail).letters) }
        ensures behind { OnOk result (self.new.spot.tail ≡ (word (C.cats codes.now) self.old.spot.tail).behind) }
        ensures fault { self.new.fault ≡ self.old.fault }
        ensures shorter { length self.new.spot.tail ≤ length self.old.spot.tail }
        ensures scalars { All IsScalar text.new }
    {
        while let Some(c) = self.peek(codes) {
            if codes.category(c) != category::LETTER {
                break;
            }
            self.pass();
            text.push(c)?;
        }
        Ok(())
    }

    // What the end of the line gives, behind which there is nothing.
    fn line_end(&mut self, alloc: Global, names: &mut Names) -> Result<Option<Token>, MouthFault>
        ensures bites { Bitten (line_end self.old.spot.state) (answer_at names.new result) self.new.spot }
        ensures fault { self.new.fault ≡ self.old.fault }
        ensures gone { self.new.spot.tail ≡ [] }
        ensures names { names.new ≡ table_behind names.old (answer_at names.new result) }
        ensures grows { Extends names.old names.new }
        ensures given { AnswerWithin (length names.new) result }
    {
        self.skip();
        match self.state() {
            LineState::NewLine => Ok(Some(named(alloc, names, &PAR)?)),
            LineState::MidLine => Ok(Some(Token::Char(SPACE, category::SPACE))),
            LineState::SkippingBlanks => Ok(None),
        }
    }

    // The state.
    fn state(&self) -> LineState
        ensures { result ≡ self.now.spot.state }
    {
        self.state
    }

    // Goes to a state.
    fn go(&mut self, state: LineState)
        ensures { self.new ≡ record { spot = record { state = state; tail = self.old.spot.tail }; fault = self.old.fault } }
    {
        self.state = state;
    }

    // Leaves the rest of the line.
    fn skip(&mut self)
        ensures { self.new ≡ record { spot = record { state = self.old.spot.state; tail = [] }; fault = self.old.fault } }
    {
        self.front = None;
        self.place = self.line.as_slice().len();
    }

    // Takes the next character, as it is looked at.
    #[tactic(auto, using(crate::proofs::Biting::biting))]
    fn take<C: Codes>(&mut self, codes: &C) -> Option<u32>
        ensures first { MatchOption result ((settled (C.cats codes.now) self.old.spot.tail ≡ []) × (self.new.spot.tail ≡ [])) (λ c. settled (C.cats codes.now) self.old.spot.tail ≡ c ∷ self.new.spot.tail) }
        ensures bites { MatchOption result (bites (C.cats codes.now) self.old.spot ≡ Dry) (λ c. bites (C.cats codes.now) self.old.spot ≡ bite (C.cats codes.now) self.old.spot.state c self.new.spot.tail (bites (C.cats codes.now) self.new.spot)) }
        ensures state { self.new.spot.state ≡ self.old.spot.state }
        ensures fault { self.new.fault ≡ self.old.fault }
        ensures lower { length self.new.spot.tail + length (option_to_list result) ≤ length self.old.spot.tail }
        ensures scalar { IfSome result IsScalar }
    {
        let c = self.peek(codes)?;
        self.pass();
        Some(c)
    }

    // The first character, where it stands in the line.
    fn ahead(&self) -> Option<u32>
        ensures first { IfSome result (λ c. self.now.spot.tail ≡ c ∷ drop 1 self.now.spot.tail) }
        ensures some { IfSome result (λ _. 1 ≤ length self.now.spot.tail) }
        ensures scalar { IfSome result IsScalar }
    {
        match self.front {
            Some(_) => None,
            None => self.line.as_slice().get(self.place).copied(),
        }
    }

    // Leaves the first character.
    fn pass(&mut self)
        requires { 1 ≤ length self.old.spot.tail }
        ensures { self.new ≡ record { spot = record { state = self.old.spot.state; tail = drop 1 self.old.spot.tail }; fault = self.old.fault } }
    {
        match self.front {
            Some(_) => self.front = None,
            None => {
                let length = self.line.as_slice().len();
                prove!(self.place < length);
                self.place += 1;
            }
        }
    }

    // What stands at the front of the characters left, as it is looked at; it is written there.
    fn peek<C: Codes>(&mut self, codes: &C) -> Option<u32>
        ensures first { MatchOption result (settled (C.cats codes.now) self.old.spot.tail ≡ []) (λ c. (settled (C.cats codes.now) self.old.spot.tail ≡ c ∷ drop 1 self.new.spot.tail) × (1 ≤ length self.new.spot.tail)) }
        ensures tail { self.new.spot.tail ≡ settled (C.cats codes.now) self.old.spot.tail }
        ensures state { self.new.spot.state ≡ self.old.spot.state }
        ensures fault { self.new.fault ≡ self.old.fault }
        ensures shorter { length self.new.spot.tail ≤ length self.old.spot.tail }
        ensures scalar { IfSome result IsScalar }
    {
        let first = match self.front {
            Some(c) => c,
            None => {
                if self.place == self.line.as_slice().len() {
                    return None;
                }
                let c = self.line.as_slice()[self.place];
                self.place += 1;
                c
            }
        };
        let looked = looked_at(codes, first, &self.line.as_slice()[self.place..]);
        self.place += looked.taken;
        self.front = Some(looked.code);
        Some(looked.code)
    }
}

// The state behind a name of one character, by its category, where it is no letter.
fn state_behind(category: u8) -> LineState
    ensures { result ≡ state_behind category }
{
    if category == category::SPACE {
        LineState::SkippingBlanks
    } else {
        LineState::MidLine
    }
}

// The name with these characters.
fn named(alloc: Global, names: &mut Names, text: &[u32]) -> Result<Token, AllocError>
    requires { All IsScalar text.now }
    ensures token { IfOk result (λ t. token_at names.new t ≡ Named text.now) }
    ensures within { IfOk result (TokenWithin (length names.new)) }
    ensures ok { OnOk result (names.new ≡ with_text names.old text.now) }
    ensures err { OnErr result (names.new ≡ names.old) }
    ensures grows { Extends names.old names.new }
{
    let text = Line::from_slice(alloc, text)?;
    intern(names, &text)
}

// The name with this text.
#[tactic(auto, using(crate::proofs::Naming::naming))]
fn intern(names: &mut Names, text: &Line) -> Result<Token, AllocError>
    requires { All IsScalar text.now }
    ensures token { IfOk result (λ t. token_at names.new t ≡ Named text.now) }
    ensures within { IfOk result (TokenWithin (length names.new)) }
    ensures ok { OnOk result (names.new ≡ with_text names.old text.now) }
    ensures err { OnErr result (names.new ≡ names.old) }
    ensures grows { Extends names.old names.new }
{
    Ok(Token::Named(names.intern(text)?))
}

// A character as it is looked at, and how many characters behind its first it stands for.
#[derive(Clone, Copy)]
struct Looked {
    code: u32,
    taken: usize,
}

// The character at the front of a text, as it is looked at.
fn looked_at<C: Codes>(codes: &C, c: u32, behind: &[u32]) -> Looked
    ensures taken { result.taken ≤ length behind.now }
    ensures settled { settled (C.cats codes.now) (c ∷ behind.now) ≡ result.code ∷ drop result.taken behind.now }
    ensures scalar { IsScalar c → IsScalar result.code }
{
    let mut looked = Looked { code: c, taken: 0 };
    while let Some(group) = group(codes, looked.code, &behind[looked.taken..]) {
        looked.code = group.code;
        looked.taken += group.taken;
    }
    looked
}

// The group of carets that begins a text, if one does.
fn group<C: Codes>(codes: &C, c: u32, behind: &[u32]) -> Option<Looked>
    ensures { MatchOption result (settled (C.cats codes.now) (c ∷ behind.now) ≡ c ∷ behind.now)
        (λ group. (1 ≤ group.taken) × (group.taken ≤ length behind.now) × IsScalar group.code
        × (settled (C.cats codes.now) (c ∷ behind.now) ≡ settled (C.cats codes.now) (group.code ∷ drop group.taken behind.now))) }
{
    if behind.len() < 2 || behind[0] != c || codes.category(c) != category::SUPERSCRIPT {
        return None;
    }
    if begins_hex(&behind[1..]) {
        return Some(Looked {
            code: 16 * hex_value(behind[1]) + hex_value(behind[2]),
            taken: 3,
        });
    }
    if behind[1] >= 128 {
        return None;
    }
    Some(Looked {
        code: turned(behind[1]),
        taken: 2,
    })
}

// Whether two hexadecimal digits begin a text.
#[tactic(auto, using(crate::proofs::Looking::hex_tests))]
fn begins_hex(text: &[u32]) -> bool
    ensures is { result ≡ begins_hex text.now }
    ensures digits { IsTrue result → (2 ≤ length text.now) × IsTrue (is_hex_digit (slice_index text.now 0)) × IsTrue (is_hex_digit (slice_index text.now 1)) }
{
    text.len() >= 2 && is_hex_digit(text[0]) && is_hex_digit(text[1])
}

// Whether this is a hexadecimal digit, in small letters.
fn is_hex_digit(x: u32) -> bool
    ensures { result ≡ is_hex_digit x }
{
    matches!(x, 48..=57 | 97..=102)
}

// The value of a hexadecimal digit.
fn hex_value(x: u32) -> u32
    requires { IsTrue (is_hex_digit x) }
    ensures value { result ≡ hex_value x }
    ensures below { result < 16 }
{
    if x < 58 { x - 48 } else { x - 87 }
}

// The character that stands 64 behind, or else 64 before.
fn turned(x: u32) -> u32
    requires { x < 128 }
    ensures value { result ≡ turned x }
    ensures below { result < 128 }
{
    if x < 64 { x + 64 } else { x - 64 }
}
