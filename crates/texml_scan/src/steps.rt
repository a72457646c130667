//! What a scanner answers, and what every scanner promises.

ghost use Rattle.std.specs.Prelude.{◌≡◌, [], ◌∷◌, List};
ghost use Rattle.texml_scan.specs.declared.looks.Look.TheVariants.{End};
ghost use Rattle.texml_scan.specs.Grammar.{Remainder, said, said_end, wanted, OnAsk, Ends, IsLast, PutsSome};

use crate::looks::Look;

/// Why no quantity can be read.
#[derive(Clone, Copy, Debug, PartialEq, Eq)]
pub enum ScanFault {
    /// A number has to stand there, and there is none.
    MissingNumber,
    /// A number passes 2147483647.
    TooBig,
    /// A dimension is 16384pt or more, or an internal one passes ±2147483647sp.
    TooLarge,
    /// A unit has to stand there, and there is none.
    IllegalUnit,
}

/// What a scanner makes of what it was fed.
#[derive(Clone, Copy, Debug, PartialEq, Eq)]
pub enum ScanStep<V> {
    /// It hasn't decided, and looks at one more.
    More,
    /// The look begins an internal quantity: it wants the same look again, with the quantity read.
    Ask,
    /// It has decided on this value.
    Done(V),
    /// It has decided on this value, of which the last so many looks aren't a part: they are put back.
    DoneBack(V, u8),
    /// It has decided that there is no value.
    Fault(ScanFault),
}

/// A scanner of a quantity: it is fed one look after the other until it has decided, and not called again then.
pub trait Scan<V> {
    /// What its grammar makes of the looks that are still to come.
    ghost rest: { Self → Remainder V };

    /// The next look. What it answers is what the grammar says of the list that was fed so far. Nothing changes
    /// where it asks for a quantity.
    fn feed(&mut self, look: Look) -> ScanStep<V>
        ensures said { (more : List Look) → rest self.old (look ∷ more) ≡ said result (rest self.new) more }
        ensures asked { OnAsk result (self.new ≡ self.old) }
        ensures back { PutsSome result };

    /// Whether the next token is wanted unexpanded, as a backquote wants it.
    fn raw(&self) -> bool
        ensures { rest self.now [] ≡ wanted result };

    /// Nothing is left to look at: this decides as a look that doesn't fit. It answers neither `More` nor `Ask`,
    /// and the end isn't among what is put back.
    fn end(&self) -> ScanStep<V>
        ensures said { rest self.now (End ∷ []) ≡ said_end result }
        ensures last { IsLast result };
}

// An answer to the end, which is not among what is put back.
pub(crate) fn ended<V>(step: ScanStep<V>) -> ScanStep<V>
    requires { Ends step }
    ensures said { (rest : Remainder V) → said step rest [] ≡ said_end result }
    ensures last { IsLast result }
{
    match step {
        ScanStep::DoneBack(value, back) => {
            if back <= 1 {
                ScanStep::Done(value)
            } else {
                ScanStep::DoneBack(value, back - 1)
            }
        }
        step => step,
    }
}
