//! Dimensions, and amounts of glue.

ghost use Rattle.std.specs.Prelude.{◌≡◌, ◌∷◌, [], ◌≤◌, List, None, false, if◌then◌else◌};
ghost use Rattle.texml_fixed.specs.Arithmetic.{IsWithin};
ghost use Rattle.texml_scan.specs.Keyword.{is_letter};
ghost use Rattle.texml_scan.specs.Grammar.{Text, Fails, stepped, Ends, AtEnd, PutsOne, OnAsk, verdict, wanted_next};
ghost use Rattle.texml_scan.specs.Measure.{measure, measure_from, with_width, dimension, opened, known_dimension, marked, decimal_more, with_decimal, units, true_unit, true_mark, point, found, factor, fraction, fils, in_unit};

use crate::int::{IntScan, digit_more, signed, spaced};
use crate::keyword::is_letter;
use crate::looks::{Look, Turn, digit_of, is_space, sign_turn};
use crate::steps::{Scan, ScanFault, ScanStep, ended};
use crate::units::{
    Mark, Opening, begins_true_unit, fil_turn, in_unit, is_point, letter_of, mark_of, opening_of,
    unit_of,
};
use texml_fixed::{Amount, MAX_NUMBER, Order, Scaled, Unit};

// Where a dimension is.
#[derive(Clone, Copy, Debug)]
enum Spot {
    Signs,
    Decimal,
    Number(IntScan),
    Fraction,
    Units,
    TrueUnits,
    Second(u8),
    True1,
    True2,
    True3,
    Fil1,
    Fil2,
    Fils(Order),
    Space,
}

/// A scanner of dimensions or, where `fil` says so, of amounts that may be of a higher order.
#[derive(Clone, Copy, Debug)]
pub(crate) struct Measuring {
    spot: Spot,
    fil: bool,
    negative: bool,
    whole: u32,
    value: Scaled,
    decimals: [u8; 17],
    count: usize,
    ghost short: { count ≤ 17 },
    ghost in_range: { whole ≤ 2147483647 },
}

// An internal dimension, unless it passes the bound.
fn known_dimension(negative: bool, value: Scaled) -> ScanStep<Amount>
    ensures stepped { (rest : Text Amount) (look : Look) (more : List Look) → known_dimension negative value more ≡ stepped result rest look more }
    ensures one { PutsOne result }
    ensures asked { OnAsk result ⊥ }
{
    if value.0 < -MAX_NUMBER {
        ScanStep::Fault(ScanFault::TooLarge)
    } else {
        ScanStep::Done(Amount {
            value: Scaled(signed(negative, value.0)),
            order: Order::Pt,
        })
    }
}

impl Measuring {
    ghost use Rattle.texml_scan.specs.MeasureRest.{measuring_rest, measuring_at, measure_of, number_left, fil_left};

    /// A scanner that has seen nothing.
    pub(crate) fn new(fil: bool) -> Measuring
        ensures { (more : List Look) → measuring_rest result more ≡ measure fil more }
    {
        Measuring::signed(fil, false)
    }

    /// A scanner that has seen signs.
    pub(crate) fn signed(fil: bool, negative: bool) -> Measuring
        ensures { (more : List Look) → measuring_rest result more ≡ measure_from fil negative more }
    {
        Measuring {
            spot: Spot::Signs,
            fil,
            negative,
            whole: 0,
            value: Scaled(0),
            decimals: [0; 17],
            count: 0,
        }
    }

    // The next thing that is looked at. Nothing changes where a quantity is asked for.
    pub(crate) fn feed(&mut self, look: Look) -> ScanStep<Amount>
        ensures stepped { (more : List Look) → measuring_rest self.old (look ∷ more) ≡ stepped result (measuring_rest self.new) look more }
        ensures one { PutsOne result }
        ensures asked { OnAsk result (self.new ≡ self.old) }
        ensures ends { AtEnd look (Ends result) }
    {
        let mut next = *self;
        let step = next.step(look);
        if !matches!(step, ScanStep::Ask) {
            *self = next;
        }
        step
    }

    // The next thing that is looked at.
    fn step(&mut self, look: Look) -> ScanStep<Amount>
        ensures stepped { (more : List Look) → measuring_rest self.old (look ∷ more) ≡ stepped result (measuring_rest self.new) look more }
        ensures one { PutsOne result }
        ensures ends { AtEnd look (Ends result) }
    {
        match self.spot {
            Spot::Signs => match sign_turn(self.negative, look) {
                Turn::On(negative) => {
                    self.negative = negative;
                    ScanStep::More
                }
                Turn::Stop => self.open(opening_of(look), look),
                Turn::Bad(fault) => ScanStep::Fault(fault),
            },
            Spot::Decimal => match digit_more(10, self.whole, digit_of(10, look)) {
                Turn::On(whole) => {
                    self.whole = whole;
                    ScanStep::More
                }
                Turn::Stop => self.point(look),
                Turn::Bad(fault) => ScanStep::Fault(fault),
            },
            Spot::Number(inner) => self.number(inner, look),
            Spot::Fraction => self.fraction(look),
            Spot::Units => self.unit(look),
            Spot::TrueUnits => self.true_unit(look),
            Spot::Second(first) => self.found(unit_of(first, letter_of(look))),
            Spot::True1 => self.letter(b'r', look, Spot::True2),
            Spot::True2 => self.letter(b'u', look, Spot::True3),
            Spot::True3 => self.letter(b'e', look, Spot::TrueUnits),
            Spot::Fil1 => self.letter(b'i', look, Spot::Fil2),
            Spot::Fil2 => self.fil(look),
            Spot::Fils(order) => self.fils(order, look),
            Spot::Space => spaced(
                Amount {
                    value: self.value,
                    order: Order::Pt,
                },
                look,
            ),
        }
    }

    // Behind the signs.
    fn open(&mut self, opening: Opening, look: Look) -> ScanStep<Amount>
        requires { AtEnd look (opening ≡ Opening.Other) }
        ensures stepped { (more : List Look) → opened self.old.fil self.old.negative opening look more ≡ stepped result (measuring_rest self.new) look more }
        ensures one { PutsOne result }
        ensures ends { AtEnd look (Ends result) }
    {
        match opening {
            Opening::Digit(digit) => {
                self.spot = Spot::Decimal;
                self.whole = u32::from(digit);
                ScanStep::More
            }
            Opening::Point => {
                self.spot = Spot::Fraction;
                self.whole = 0;
                self.count = 0;
                ScanStep::More
            }
            Opening::Number => self.number(IntScan::new(), look),
            Opening::Factor(value) if value < -MAX_NUMBER => ScanStep::Fault(ScanFault::TooBig),
            Opening::Factor(value) => {
                self.factor(value);
                ScanStep::More
            }
            Opening::Length(value) => known_dimension(self.negative, value),
            Opening::Unread => ScanStep::Ask,
            Opening::Other => ScanStep::Fault(ScanFault::MissingNumber),
        }
    }

    // A factor: its unit comes.
    fn factor(&mut self, value: i32)
        requires { IsWithin value }
        ensures rest { (more : List Look) → factor self.old.fil self.old.negative value more ≡ units (measure_of self.new) more }
        ensures spot { self.new.spot ≡ Spot.Units }
    {
        self.spot = Spot::Units;
        self.negative = self.negative != (value < 0);
        self.whole = value.unsigned_abs();
        self.count = 0;
    }

    // A number that is octal, hexadecimal or a character.
    fn number(&mut self, inner: IntScan, look: Look) -> ScanStep<Amount>
        ensures stepped { (more : List Look) → number_left inner self.old.fil self.old.negative (look ∷ more) ≡ stepped result (measuring_rest self.new) look more }
        ensures one { PutsOne result }
        ensures ends { AtEnd look (Ends result) }
    {
        let mut inner = inner;
        match inner.step(look) {
            ScanStep::More => {
                self.spot = Spot::Number(inner);
                ScanStep::More
            }
            ScanStep::Ask => ScanStep::Ask,
            ScanStep::Done(value) => {
                self.factor(value);
                ScanStep::More
            }
            ScanStep::DoneBack(value, _) => {
                self.factor(value);
                self.unit(look)
            }
            ScanStep::Fault(fault) => ScanStep::Fault(fault),
        }
    }

    // Behind the digits before the point.
    fn point(&mut self, look: Look) -> ScanStep<Amount>
        ensures stepped { (more : List Look) → point self.old.fil self.old.negative self.old.whole (look ∷ more) ≡ stepped result (measuring_rest self.new) look more }
        ensures one { PutsOne result }
        ensures ends { AtEnd look (Ends result) }
    {
        self.count = 0;
        if is_point(look) {
            self.spot = Spot::Fraction;
            ScanStep::More
        } else {
            self.unit(look)
        }
    }

    // A digit behind the point, or the unit.
    fn fraction(&mut self, look: Look) -> ScanStep<Amount>
        ensures stepped { (more : List Look) → fraction self.old.fil self.old.negative self.old.whole (measure_of self.old).decimals (look ∷ more) ≡ stepped result (measuring_rest self.new) look more }
        ensures one { PutsOne result }
        ensures ends { AtEnd look (Ends result) }
    {
        match digit_of(10, look) {
            None => self.unit(look),
            Some(digit) => {
                self.spot = Spot::Fraction;
                self.push(digit);
                ScanStep::More
            }
        }
    }

    // One more digit behind the point, if it counts.
    fn push(&mut self, digit: u8)
        ensures measure { measure_of self.new ≡ record (measure_of self.old) { decimals = with_decimal (measure_of self.old).decimals digit } }
        ensures spot { self.new.spot ≡ self.old.spot }
    {
        if self.count < 17 {
            self.decimals[self.count] = digit;
            self.count += 1;
        }
    }

    // Spaces before a unit, or its beginning.
    fn unit(&mut self, look: Look) -> ScanStep<Amount>
        ensures stepped { (more : List Look) → units (measure_of self.old) (look ∷ more) ≡ stepped result (measuring_rest self.new) look more }
        ensures one { PutsOne result }
        ensures ends { AtEnd look (Ends result) }
    {
        if is_space(look) {
            self.spot = Spot::Units;
            ScanStep::More
        } else {
            self.mark(mark_of(self.fil, look))
        }
    }

    // The beginning of a unit.
    fn mark(&mut self, mark: Mark) -> ScanStep<Amount>
        ensures stepped { (look : Look) (more : List Look) → marked (measure_of self.old) mark more ≡ stepped result (measuring_rest self.new) look more }
        ensures one { PutsOne result }
        ensures ends { mark ≡ Mark.Other → Ends result }
    {
        match mark {
            Mark::True => {
                self.spot = Spot::True1;
                ScanStep::More
            }
            Mark::Fil => {
                self.spot = Spot::Fil1;
                ScanStep::More
            }
            Mark::Letter(letter) => {
                self.spot = Spot::Second(letter);
                ScanStep::More
            }
            Mark::Own(value) => match self.measured(Unit::Own(value)) {
                Ok(value) => ScanStep::Done(Amount {
                    value,
                    order: Order::Pt,
                }),
                Err(fault) => ScanStep::Fault(fault),
            },
            Mark::Unread => ScanStep::Ask,
            Mark::Other => ScanStep::Fault(ScanFault::IllegalUnit),
        }
    }

    // Spaces before a unit behind `true`, or its first letter.
    fn true_unit(&mut self, look: Look) -> ScanStep<Amount>
        ensures stepped { (more : List Look) → true_unit (measure_of self.old) (look ∷ more) ≡ stepped result (measuring_rest self.new) look more }
        ensures one { PutsOne result }
        ensures ends { AtEnd look (Ends result) }
    {
        if is_space(look) {
            self.spot = Spot::TrueUnits;
            return ScanStep::More;
        }
        let letter = letter_of(look);
        self.true_mark(letter, begins_true_unit(letter))
    }

    // The first letter of a unit behind `true`.
    fn true_mark(&mut self, letter: u8, begins: bool) -> ScanStep<Amount>
        ensures stepped { (look : Look) (more : List Look) → true_mark (measure_of self.old) letter begins more ≡ stepped result (measuring_rest self.new) look more }
        ensures one { PutsOne result }
        ensures ends { begins ≡ false → Ends result }
    {
        if begins {
            self.spot = Spot::Second(letter);
            ScanStep::More
        } else {
            ScanStep::Fault(ScanFault::IllegalUnit)
        }
    }

    // The second letter of a unit was seen.
    fn found(&mut self, unit: Option<Unit>) -> ScanStep<Amount>
        ensures stepped { (look : Look) (more : List Look) → found (measure_of self.old) unit more ≡ stepped result (measuring_rest self.new) look more }
        ensures one { PutsOne result }
        ensures ends { unit ≡ None → Ends result }
    {
        match unit {
            None => ScanStep::Fault(ScanFault::IllegalUnit),
            Some(unit) => match self.measured(unit) {
                Ok(value) => {
                    self.spot = Spot::Space;
                    self.value = value;
                    ScanStep::More
                }
                Err(fault) => ScanStep::Fault(fault),
            },
        }
    }

    // What was measured so far, in a unit.
    fn measured(&self, unit: Unit) -> Result<Scaled, ScanFault>
        ensures { result ≡ in_unit (measure_of self.now) unit }
    {
        in_unit(
            self.negative,
            self.whole,
            &self.decimals[..self.count],
            unit,
        )
    }

    // A letter in the middle of a word.
    fn letter(&mut self, letter: u8, look: Look, next: Spot) -> ScanStep<Amount>
        ensures stepped { (more : List Look) → (if is_letter letter look then measuring_at next (measure_of self.old) self.old.value more else Fails ScanFault.IllegalUnit) ≡ stepped result (measuring_rest self.new) look more }
        ensures one { PutsOne result }
        ensures ends { AtEnd look (Ends result) }
    {
        if is_letter(letter, look) {
            self.spot = next;
            ScanStep::More
        } else {
            ScanStep::Fault(ScanFault::IllegalUnit)
        }
    }

    // The last letter of fil.
    fn fil(&mut self, look: Look) -> ScanStep<Amount>
        ensures stepped { (more : List Look) → fil_left (measure_of self.old) (look ∷ more) ≡ stepped result (measuring_rest self.new) look more }
        ensures one { PutsOne result }
        ensures ends { AtEnd look (Ends result) }
    {
        if !is_letter(b'l', look) {
            return ScanStep::Fault(ScanFault::IllegalUnit);
        }
        match self.measured(Unit::Pt) {
            Ok(value) => {
                self.spot = Spot::Fils(Order::Fil);
                self.value = value;
                ScanStep::More
            }
            Err(fault) => ScanStep::Fault(fault),
        }
    }

    // A further l, or what comes behind.
    fn fils(&mut self, order: Order, look: Look) -> ScanStep<Amount>
        ensures stepped { (more : List Look) → fils self.old.value order (look ∷ more) ≡ stepped result (measuring_rest self.new) look more }
        ensures one { PutsOne result }
        ensures ends { AtEnd look (Ends result) }
    {
        match fil_turn(order, look) {
            Turn::On(order) => {
                self.spot = Spot::Fils(order);
                ScanStep::More
            }
            Turn::Stop => ScanStep::DoneBack(
                Amount {
                    value: self.value,
                    order,
                },
                1,
            ),
            Turn::Bad(fault) => ScanStep::Fault(fault),
        }
    }
}

impl Measuring {
    ghost use Rattle.texml_scan.specs.MeasureRest.{measuring_rest};

    // Whether the next token is wanted unexpanded.
    pub(crate) fn raw(&self) -> bool
        ensures { measuring_rest self.now [] ≡ wanted_next result }
    {
        match &self.spot {
            Spot::Number(inner) => inner.is_raw(),
            _ => false,
        }
    }
}

/// A scanner of dimensions: signs and spaces, then a number with a unit, or an internal dimension.
#[derive(Clone, Copy, Debug)]
pub struct DimenScan {
    inner: Measuring,
}

// An amount that can't be fil, as a dimension.
fn width(step: ScanStep<Amount>) -> ScanStep<Scaled>
    ensures stepped { (rest : Text Amount) (look : Look) (more : List Look) → with_width (stepped step rest look more) ≡ stepped result (λ later. with_width (rest later)) look more }
    ensures one { PutsOne step → PutsOne result }
    ensures ends { Ends step → Ends result }
    ensures asked { result ≡ ScanStep.Ask → step ≡ ScanStep.Ask }
{
    match step {
        ScanStep::More => ScanStep::More,
        ScanStep::Ask => ScanStep::Ask,
        ScanStep::Done(amount) => ScanStep::Done(amount.value),
        ScanStep::DoneBack(amount, back) => ScanStep::DoneBack(amount.value, back),
        ScanStep::Fault(fault) => ScanStep::Fault(fault),
    }
}

impl DimenScan {
    ghost use Rattle.texml_scan.specs.MeasureRest.{dimen_rest};

    /// A scanner that has seen nothing.
    pub fn new() -> DimenScan
        ensures { (more : List Look) → dimen_rest result more ≡ dimension more }
    {
        DimenScan {
            inner: Measuring::new(false),
        }
    }
}

impl Scan<Scaled> for DimenScan {
    ghost use Rattle.texml_scan.specs.MeasureRest.{dimen_rest};

    ghost rest = { λ s more. verdict (dimen_rest s more) };

    fn feed(&mut self, look: Look) -> ScanStep<Scaled> {
        width(self.inner.feed(look))
    }

    fn raw(&self) -> bool {
        self.inner.raw()
    }

    fn end(&self) -> ScanStep<Scaled> {
        let mut last = self.inner;
        ended(width(last.feed(Look::End)))
    }
}
