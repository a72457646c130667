//! The scanners of quantities as one, which is fed looks until it has decided.

ghost use Rattle.std.specs.Prelude.{◌≡◌, ◌≤◌, [], ◌∷◌, List, length};
ghost use Rattle.texml_scan.specs.declared.looks.Look.TheVariants.{End};
ghost use Rattle.texml_scan.specs.declared.steps.ScanStep.{ScanStep};
ghost use Rattle.texml_scan.specs.Grammar.{Remainder};
ghost use Rattle.texml_expand.specs.Machine.{Value, mapped, scanned_as, ended_as, GoesOn, Asks, IsOver, machine_rest};

use texml_fixed::{Glue, Scaled};
use texml_scan::{DimenScan, GlueScan, IntScan, KeywordScan, Look, Scan, ScanFault, ScanStep};

/// What a scanner decides on.
#[derive(Clone, Copy, Debug, PartialEq, Eq)]
pub(crate) enum Value {
    Int(i32),
    Dimen(Scaled),
    Glue(Glue),
    Found(bool),
}

/// What a scanner makes of what it has looked at: it wants an expanded token next, or one as it stands, or the quantity
/// that the last token begins; it has decided on a value, of which so many of the last tokens aren't a part; or there is none.
#[derive(Clone, Copy, Debug, PartialEq, Eq)]
pub(crate) enum Scanned {
    Expanded,
    Raw,
    Asked,
    Decided(Value, u8),
    Faulty(ScanFault),
}

impl Scanned {
    ghost use Rattle.texml_expand.specs.Scanning.{raw_in};

    /// Whether the next token is wanted as it stands, where one is wanted.
    pub(crate) fn raw(self) -> Option<bool>
        ensures { result ≡ raw_in self }
    {
        match self {
            Scanned::Expanded => Some(false),
            Scanned::Raw => Some(true),
            Scanned::Asked => None,
            Scanned::Decided(_, _) => None,
            Scanned::Faulty(_) => None,
        }
    }
}

// What may be read, as a value.
trait Worth {
    /// The value.
    ghost worth: { Self → Value };

    fn value(self) -> Value
        ensures { result ≡ worth self };
}

impl Worth for i32 {
    ghost use Rattle.texml_expand.specs.declared.machine.Value.TheVariants.{Int};

    ghost worth = { Int };

    fn value(self) -> Value {
        Value::Int(self)
    }
}

impl Worth for Scaled {
    ghost use Rattle.texml_expand.specs.declared.machine.Value.TheVariants.{Dimen};

    ghost worth = { Dimen };

    fn value(self) -> Value {
        Value::Dimen(self)
    }
}

impl Worth for Glue {
    ghost use Rattle.texml_expand.specs.declared.machine.Value.TheVariants as values;

    ghost worth = { values.Glue };

    fn value(self) -> Value {
        Value::Glue(self)
    }
}

impl Worth for bool {
    ghost use Rattle.texml_expand.specs.declared.machine.Value.TheVariants.{Found};

    ghost worth = { Found };

    fn value(self) -> Value {
        Value::Found(self)
    }
}

// What a scanner makes of nothing.
fn at_first<V: Worth, S: Scan<V>>(scan: &S) -> Scanned
    ensures is { mapped V.worth (S.rest scan.now []) ≡ scanned_as result }
    ensures asked { Asks result ⊥ }
{
    if scan.raw() {
        Scanned::Raw
    } else {
        Scanned::Expanded
    }
}

// What a scanner makes of one more look.
fn turned<V: Worth, S: Scan<V>>(scan: &mut S, look: Look) -> Scanned
    ensures is { mapped V.worth (S.rest scan.old (look ∷ [])) ≡ scanned_as result }
    ensures on { GoesOn result ((more : List Look) → S.rest scan.old (look ∷ more) ≡ S.rest scan.new more) }
    ensures asked { Asks result (scan.new ≡ scan.old) }
{
    match scan.feed(look) {
        ScanStep::More => at_first(scan),
        ScanStep::Ask => Scanned::Asked,
        ScanStep::Done(value) => Scanned::Decided(value.value(), 0),
        ScanStep::DoneBack(value, back) => Scanned::Decided(value.value(), back),
        ScanStep::Fault(fault) => Scanned::Faulty(fault),
    }
}

// What a scanner makes of the end, which isn't among what goes back.
fn ended<V: Worth, S: Scan<V>>(scan: &S) -> Scanned
    ensures is { mapped V.worth (S.rest scan.now (End ∷ [])) ≡ ended_as result }
    ensures over { IsOver result }
{
    match scan.end() {
        ScanStep::More => unreachable!(),
        ScanStep::Ask => unreachable!(),
        ScanStep::Done(value) => Scanned::Decided(value.value(), 0),
        ScanStep::DoneBack(value, back) => Scanned::Decided(value.value(), back),
        ScanStep::Fault(fault) => Scanned::Faulty(fault),
    }
}

/// A scanner of a number, a dimension, glue or a keyword.
#[derive(Clone, Copy)]
pub(crate) enum Machine<'a> {
    Int(IntScan),
    Dimen(DimenScan),
    Glue(GlueScan),
    Keyword(KeywordScan<'a>),
}

impl<'a> Machine<'a> {
    /// What it makes of nothing more.
    pub(crate) fn first(&self) -> Scanned
        ensures { machine_rest self.now [] ≡ scanned_as result }
    {
        match self {
            Machine::Int(scan) => at_first(scan),
            Machine::Dimen(scan) => at_first(scan),
            Machine::Glue(scan) => at_first(scan),
            Machine::Keyword(scan) => at_first(scan),
        }
    }

    /// What it makes of one more look. Nothing changes where it asks for a quantity.
    pub(crate) fn turn(&mut self, look: Look) -> Scanned
        ensures is { machine_rest self.old (look ∷ []) ≡ scanned_as result }
        ensures on { GoesOn result ((more : List Look) → machine_rest self.old (look ∷ more) ≡ machine_rest self.new more) }
        ensures asked { Asks result (self.new ≡ self.old) }
    {
        match self {
            Machine::Int(scan) => turned(scan, look),
            Machine::Dimen(scan) => turned(scan, look),
            Machine::Glue(scan) => turned(scan, look),
            Machine::Keyword(scan) => turned(scan, look),
        }
    }

    /// What it makes of the end, which isn't among what goes back.
    pub(crate) fn end(&self) -> Scanned
        ensures is { machine_rest self.now (End ∷ []) ≡ ended_as result }
        ensures over { IsOver result }
    {
        match self {
            Machine::Int(scan) => ended(scan),
            Machine::Dimen(scan) => ended(scan),
            Machine::Glue(scan) => ended(scan),
            Machine::Keyword(scan) => ended(scan),
        }
    }
}
