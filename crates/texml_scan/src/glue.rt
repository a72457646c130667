//! Glue.

ghost use Rattle.std.specs.Prelude.{◌≡◌, ◌∷◌, [], ◌<◌, List, None};
ghost use Rattle.texml_fixed.specs.declared.glue.Glue.{Glue};
ghost use Rattle.texml_scan.specs.Grammar.{Remainder, said, Ends, AtEnd, OnAsk, PutsSome, verdict};
ghost use Rattle.texml_scan.specs.Glue.{glue, internal_glue, glue_opened, known_glue, stretched, shrunk};

use crate::keyword::Letter;
use crate::looks::{Look, Quantity, Turn, sign_turn};
use crate::measure::Measuring;
use crate::steps::{Scan, ScanFault, ScanStep, ended};
use texml_fixed::{Amount, Glue, MAX_NUMBER, Scaled};

const PLUS: [u8; 4] = *b"plus";

const MINUS: [u8; 5] = *b"minus";

// Which part of a glue is being read.
#[derive(Clone, Copy, Debug, PartialEq, Eq)]
enum Part {
    Signs,
    Width,
    Plus,
    Stretch,
    Minus,
    Shrink,
}

/// A scanner of glue: a dimension with what it may stretch and shrink by, or an internal glue.
#[derive(Clone, Copy, Debug)]
pub struct GlueScan {
    part: Part,
    negative: bool,
    inner: Measuring,
    plus_at: usize,
    minus_at: usize,
    width: Scaled,
    stretch: Amount,
    ghost plus_inside: { plus_at < 4 },
    ghost minus_inside: { minus_at < 5 },
}

// An internal glue.
fn internal_glue(look: Look) -> Option<Glue>
    ensures is { result ≡ internal_glue look }
    ensures end { AtEnd look (result ≡ None) }
{
    match look {
        Look::End | Look::Character(_, _) => None,
        Look::Other(_, Quantity::Glue(glue)) => Some(glue),
        Look::Other(_, _) => None,
    }
}

// Glue that was read already, with its signs, unless a part passes the bound.
fn known_glue(negative: bool, glue: Glue) -> ScanStep<Glue>
    ensures said { (rest : Remainder Glue) (more : List Look) → verdict (known_glue negative glue more) ≡ said result rest more }
    ensures asked { OnAsk result ⊥ }
    ensures back { PutsSome result }
{
    if glue.width.0 < -MAX_NUMBER || glue.stretch.0 < -MAX_NUMBER || glue.shrink.0 < -MAX_NUMBER {
        ScanStep::Fault(ScanFault::TooLarge)
    } else if negative {
        ScanStep::Done(glue.negated())
    } else {
        ScanStep::Done(glue)
    }
}

impl GlueScan {
    ghost use Rattle.texml_scan.specs.GlueRest.{glue_rest, width_left, plus_left, stretch_left, minus_left, shrink_left};

    /// A scanner that has seen nothing.
    pub fn new() -> GlueScan
        ensures { (more : List Look) → glue_rest result more ≡ verdict (glue more) }
    {
        GlueScan {
            part: Part::Signs,
            negative: false,
            inner: Measuring::new(false),
            plus_at: 0,
            minus_at: 0,
            width: Scaled(0),
            stretch: Amount::ZERO,
        }
    }

    // The next thing that is looked at.
    fn step(&mut self, look: Look) -> ScanStep<Glue>
        ensures said { (more : List Look) → glue_rest self.old (look ∷ more) ≡ said result (glue_rest self.new) more }
        ensures ends { AtEnd look (Ends result) }
        ensures back { PutsSome result }
    {
        match self.part {
            Part::Signs => match sign_turn(self.negative, look) {
                Turn::On(negative) => {
                    self.negative = negative;
                    ScanStep::More
                }
                Turn::Stop => self.open(internal_glue(look), look),
                Turn::Bad(fault) => ScanStep::Fault(fault),
            },
            Part::Width => self.width(look),
            Part::Plus => self.plus(look),
            Part::Stretch => self.stretch(look),
            Part::Minus => self.minus(look),
            Part::Shrink => self.shrink(look),
        }
    }

    // Behind the signs.
    fn open(&mut self, glue: Option<Glue>, look: Look) -> ScanStep<Glue>
        requires { AtEnd look (glue ≡ None) }
        ensures said { (more : List Look) → verdict (glue_opened self.old.negative glue look more) ≡ said result (glue_rest self.new) more }
        ensures ends { AtEnd look (Ends result) }
        ensures back { PutsSome result }
    {
        match glue {
            Some(glue) => known_glue(self.negative, glue),
            None => {
                self.part = Part::Width;
                self.inner = Measuring::signed(false, self.negative);
                self.width(look)
            }
        }
    }

    // In the width.
    fn width(&mut self, look: Look) -> ScanStep<Glue>
        requires { self.old.part ≡ Part.Width }
        ensures said { (more : List Look) → verdict (width_left self.old.inner (look ∷ more)) ≡ said result (glue_rest self.new) more }
        ensures ends { AtEnd look (Ends result) }
        ensures back { PutsSome result }
    {
        match self.inner.feed(look) {
            ScanStep::More => ScanStep::More,
            ScanStep::Ask => ScanStep::Ask,
            ScanStep::Done(width) => {
                self.begin_plus(width);
                ScanStep::More
            }
            ScanStep::DoneBack(width, _) => {
                self.begin_plus(width);
                self.plus(look)
            }
            ScanStep::Fault(fault) => ScanStep::Fault(fault),
        }
    }

    // The width is known.
    fn begin_plus(&mut self, width: Amount)
        ensures part { self.new.part ≡ Part.Plus }
        ensures left { (more : List Look) → stretched width more ≡ plus_left self.new.plus_at self.new.width more }
        ensures rest { (more : List Look) → verdict (stretched width more) ≡ glue_rest self.new more }
    {
        self.part = Part::Plus;
        self.plus_at = 0;
        self.width = width.value;
    }

    // The stretch is known.
    fn begin_minus(&mut self, stretch: Amount)
        ensures part { self.new.part ≡ Part.Minus }
        ensures left { (more : List Look) → shrunk self.old.width stretch more ≡ minus_left self.new.minus_at self.new.width self.new.stretch more }
        ensures rest { (more : List Look) → verdict (shrunk self.old.width stretch more) ≡ glue_rest self.new more }
    {
        self.part = Part::Minus;
        self.minus_at = 0;
        self.stretch = stretch;
    }

    // In `plus`.
    fn plus(&mut self, look: Look) -> ScanStep<Glue>
        requires { self.old.part ≡ Part.Plus }
        ensures said { (more : List Look) → verdict (plus_left self.old.plus_at self.old.width (look ∷ more)) ≡ said result (glue_rest self.new) more }
        ensures ends { AtEnd look (Ends result) }
        ensures back { PutsSome result }
    {
        match Letter::at(&PLUS, self.plus_at, look) {
            Letter::Skipped => ScanStep::More,
            Letter::Next => {
                self.part = Part::Plus;
                self.plus_at += 1;
                ScanStep::More
            }
            Letter::Whole => {
                self.part = Part::Stretch;
                self.inner = Measuring::new(true);
                ScanStep::More
            }
            Letter::Missing => {
                if self.plus_at == 0 {
                    self.begin_minus(Amount::ZERO);
                    self.minus(look)
                } else {
                    ScanStep::DoneBack(
                        Glue::new(self.width, Amount::ZERO, Amount::ZERO),
                        (self.plus_at + 1) as u8,
                    )
                }
            }
        }
    }

    // In the stretch.
    fn stretch(&mut self, look: Look) -> ScanStep<Glue>
        requires { self.old.part ≡ Part.Stretch }
        ensures said { (more : List Look) → verdict (stretch_left self.old.inner self.old.width (look ∷ more)) ≡ said result (glue_rest self.new) more }
        ensures ends { AtEnd look (Ends result) }
        ensures back { PutsSome result }
    {
        match self.inner.feed(look) {
            ScanStep::More => ScanStep::More,
            ScanStep::Ask => ScanStep::Ask,
            ScanStep::Done(stretch) => {
                self.begin_minus(stretch);
                ScanStep::More
            }
            ScanStep::DoneBack(stretch, _) => {
                self.begin_minus(stretch);
                self.minus(look)
            }
            ScanStep::Fault(fault) => ScanStep::Fault(fault),
        }
    }

    // In `minus`.
    fn minus(&mut self, look: Look) -> ScanStep<Glue>
        requires { self.old.part ≡ Part.Minus }
        ensures said { (more : List Look) → verdict (minus_left self.old.minus_at self.old.width self.old.stretch (look ∷ more)) ≡ said result (glue_rest self.new) more }
        ensures ends { AtEnd look (Ends result) }
        ensures back { PutsSome result }
    {
        match Letter::at(&MINUS, self.minus_at, look) {
            Letter::Skipped => ScanStep::More,
            Letter::Next => {
                self.part = Part::Minus;
                self.minus_at += 1;
                ScanStep::More
            }
            Letter::Whole => {
                self.part = Part::Shrink;
                self.inner = Measuring::new(true);
                ScanStep::More
            }
            Letter::Missing => ScanStep::DoneBack(
                Glue::new(self.width, self.stretch, Amount::ZERO),
                (self.minus_at + 1) as u8,
            ),
        }
    }

    // In the shrink.
    fn shrink(&mut self, look: Look) -> ScanStep<Glue>
        requires { self.old.part ≡ Part.Shrink }
        ensures said { (more : List Look) → verdict (shrink_left self.old.inner self.old.width self.old.stretch (look ∷ more)) ≡ said result (glue_rest self.new) more }
        ensures ends { AtEnd look (Ends result) }
        ensures back { PutsSome result }
    {
        match self.inner.feed(look) {
            ScanStep::More => ScanStep::More,
            ScanStep::Ask => ScanStep::Ask,
            ScanStep::Done(shrink) => ScanStep::Done(Glue::new(self.width, self.stretch, shrink)),
            ScanStep::DoneBack(shrink, back) => ScanStep::DoneBack(
                Glue::new(self.width, self.stretch, shrink),
                back,
            ),
            ScanStep::Fault(fault) => ScanStep::Fault(fault),
        }
    }
}

impl Scan<Glue> for GlueScan {
    ghost use Rattle.texml_scan.specs.GlueRest.{glue_rest};

    ghost rest = { glue_rest };

    fn feed(&mut self, look: Look) -> ScanStep<Glue> {
        let mut next = *self;
        let step = next.step(look);
        if !matches!(step, ScanStep::Ask) {
            *self = next;
        }
        step
    }

    fn raw(&self) -> bool {
        match self.part {
            Part::Width | Part::Stretch | Part::Shrink => self.inner.raw(),
            Part::Signs => false,
            Part::Plus => false,
            Part::Minus => false,
        }
    }

    fn end(&self) -> ScanStep<Glue> {
        let mut last = *self;
        ended(last.step(Look::End))
    }
}
