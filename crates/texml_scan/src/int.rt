//! Numbers.

ghost use Rattle.std.specs.Prelude.{◌≡◌, ◌∷◌, [], ◌≤◌, pos, List, ℤ, Option, None};
ghost use Rattle.texml_fixed.specs.Arithmetic.{IsWithin};
ghost use Rattle.texml_scan.specs.Grammar.{Text, stepped, verdict, Ends, AtEnd, OnAsk, OnValue, PutsOne, wanted_next};
ghost use Rattle.texml_scan.specs.Number.{number, signed, known, digit_more, one_space, begun, first_by, digits, quoted_by};

use crate::looks::{Look, Start, Turn, code_of, digit_of, is_space, sign_turn, start_of};
use crate::steps::{Scan, ScanFault, ScanStep, ended};
use texml_fixed::{MAX_NUMBER, add_digit};

// Where a number is.
#[derive(Clone, Copy, Debug, PartialEq, Eq)]
enum Place {
    Signs,
    First(u8),
    Digits(u8),
    Quote,
    Space,
}

/// A scanner of numbers: signs and spaces, then digits, a backquote with a character, or an internal quantity.
#[derive(Clone, Copy, Debug)]
pub struct IntScan {
    place: Place,
    negative: bool,
    value: u32,
    ghost in_range: { value ≤ 2147483647 },
}

// A number with its sign.
pub(crate) fn signed(negative: bool, value: i32) -> i32
    requires { IsWithin value }
    ensures value { result ≡ signed negative value }
    ensures within { IsWithin result }
{
    if negative { -value } else { value }
}

// A number with its sign.
fn signed_natural(negative: bool, value: u32) -> i32
    requires { value ≤ 2147483647 }
    ensures value { result ≡ signed negative (pos value) }
    ensures within { IsWithin result }
{
    signed(negative, value as i32)
}

// A number with one more digit.
pub(crate) fn digit_more(radix: u8, value: u32, digit: Option<u8>) -> Turn<u32>
    requires { value ≤ 2147483647 }
    ensures { result ≡ digit_more radix value digit }
{
    match digit {
        None => Turn::Stop,
        Some(digit) => match add_digit(value as i32, i32::from(radix), i32::from(digit)) {
            Ok(more) => Turn::On(more.unsigned_abs()),
            Err(_) => Turn::Bad(ScanFault::TooBig),
        },
    }
}

// A value that is followed by at most one space.
pub(crate) fn spaced<V>(value: V, look: Look) -> ScanStep<V>
    ensures stepped { (rest : Text V) (more : List Look) → one_space value (look ∷ more) ≡ stepped result rest look more }
    ensures one { PutsOne result }
    ensures value { OnValue result (λ answer. answer ≡ value) }
    ensures asked { OnAsk result ⊥ }
    ensures ends { AtEnd look (Ends result) }
{
    if is_space(look) {
        ScanStep::Done(value)
    } else {
        ScanStep::DoneBack(value, 1)
    }
}

// A number that was read already, unless it passes the bound.
fn known(negative: bool, value: i32) -> ScanStep<i32>
    ensures stepped { (rest : Text ℤ) (look : Look) (more : List Look) → known negative value more ≡ stepped result rest look more }
    ensures one { PutsOne result }
    ensures asked { OnAsk result ⊥ }
    ensures within { OnValue result IsWithin }
{
    if value < -MAX_NUMBER {
        ScanStep::Fault(ScanFault::TooBig)
    } else {
        ScanStep::Done(signed(negative, value))
    }
}

impl IntScan {
    ghost use Rattle.texml_scan.specs.IntRest.{number_rest};

    /// A scanner that has seen nothing.
    pub fn new() -> IntScan
        ensures { (more : List Look) → number_rest result more ≡ number more }
    {
        IntScan {
            place: Place::Signs,
            negative: false,
            value: 0,
        }
    }

    // The next thing that is looked at.
    pub(crate) fn step(&mut self, look: Look) -> ScanStep<i32>
        ensures stepped { (more : List Look) → number_rest self.old (look ∷ more) ≡ stepped result (number_rest self.new) look more }
        ensures one { PutsOne result }
        ensures within { OnValue result IsWithin }
        ensures asked { OnAsk result (self.new ≡ self.old) }
        ensures ends { AtEnd look (Ends result) }
    {
        match self.place {
            Place::Signs => match sign_turn(self.negative, look) {
                Turn::On(negative) => {
                    self.negative = negative;
                    ScanStep::More
                }
                Turn::Stop => self.begin(start_of(look)),
                Turn::Bad(fault) => ScanStep::Fault(fault),
            },
            Place::First(radix) => self.first(radix, digit_of(radix, look)),
            Place::Digits(radix) => self.digit(radix, look),
            Place::Quote => self.quoted(code_of(look)),
            Place::Space => spaced(signed_natural(self.negative, self.value), look),
        }
    }

    // Whether the next token is wanted unexpanded.
    pub(crate) fn is_raw(&self) -> bool
        ensures { number_rest self.now [] ≡ wanted_next result }
    {
        matches!(self.place, Place::Quote)
    }

    // The number begins, behind its signs.
    fn begin(&mut self, start: Start) -> ScanStep<i32>
        ensures stepped { (look : Look) (more : List Look) → begun self.old.negative start more ≡ stepped result (number_rest self.new) look more }
        ensures one { PutsOne result }
        ensures within { OnValue result IsWithin }
        ensures asked { OnAsk result (self.new ≡ self.old) }
        ensures ends { start ≡ Start.Other → Ends result }
    {
        match start {
            Start::Digit(digit) => {
                self.place = Place::Digits(10);
                self.value = u32::from(digit);
                ScanStep::More
            }
            Start::Radix(radix) => {
                self.place = Place::First(radix);
                ScanStep::More
            }
            Start::Quote => {
                self.place = Place::Quote;
                ScanStep::More
            }
            Start::Known(value) => known(self.negative, value),
            Start::Unread => ScanStep::Ask,
            Start::Other => ScanStep::Fault(ScanFault::MissingNumber),
        }
    }

    // The first digit, behind ' or ".
    fn first(&mut self, radix: u8, digit: Option<u8>) -> ScanStep<i32>
        ensures stepped { (look : Look) (more : List Look) → first_by self.old.negative radix digit more ≡ stepped result (number_rest self.new) look more }
        ensures one { PutsOne result }
        ensures within { OnValue result IsWithin }
        ensures asked { OnAsk result ⊥ }
        ensures ends { digit ≡ None → Ends result }
    {
        match digit {
            None => ScanStep::Fault(ScanFault::MissingNumber),
            Some(digit) => {
                self.place = Place::Digits(radix);
                self.value = u32::from(digit);
                ScanStep::More
            }
        }
    }

    // A further digit, or what comes behind them.
    fn digit(&mut self, radix: u8, look: Look) -> ScanStep<i32>
        ensures stepped { (more : List Look) → digits self.old.negative radix self.old.value (look ∷ more) ≡ stepped result (number_rest self.new) look more }
        ensures one { PutsOne result }
        ensures within { OnValue result IsWithin }
        ensures asked { OnAsk result ⊥ }
        ensures ends { AtEnd look (Ends result) }
    {
        match digit_more(radix, self.value, digit_of(radix, look)) {
            Turn::On(value) => {
                self.place = Place::Digits(radix);
                self.value = value;
                ScanStep::More
            }
            Turn::Stop => spaced(signed_natural(self.negative, self.value), look),
            Turn::Bad(fault) => ScanStep::Fault(fault),
        }
    }

    // The character behind a backquote.
    fn quoted(&mut self, code: Option<u32>) -> ScanStep<i32>
        ensures stepped { (look : Look) (more : List Look) → quoted_by self.old.negative code more ≡ stepped result (number_rest self.new) look more }
        ensures one { PutsOne result }
        ensures within { OnValue result IsWithin }
        ensures asked { OnAsk result ⊥ }
        ensures ends { code ≡ None → Ends result }
    {
        match code {
            None => ScanStep::Fault(ScanFault::MissingNumber),
            Some(code) => {
                if code > MAX_NUMBER as u32 {
                    return ScanStep::Fault(ScanFault::TooBig);
                }
                self.place = Place::Space;
                self.value = code;
                ScanStep::More
            }
        }
    }
}

impl Scan<i32> for IntScan {
    ghost use Rattle.texml_scan.specs.IntRest.{number_rest};

    ghost rest = { λ s more. verdict (number_rest s more) };

    fn feed(&mut self, look: Look) -> ScanStep<i32> {
        self.step(look)
    }

    fn raw(&self) -> bool {
        self.is_raw()
    }

    fn end(&self) -> ScanStep<i32> {
        let mut last = *self;
        ended(last.step(Look::End))
    }
}
