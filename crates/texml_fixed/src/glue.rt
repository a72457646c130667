//! Glue, and its sums, products and quotients.

ghost use Rattle.std.specs.Prelude.{◌≡◌, ◌*ℤ◌, IfOk};
ghost use Rattle.texml_fixed.specs.Arithmetic.{bounded, divided, IsWithin};
ghost use Rattle.texml_fixed.specs.Glue.{glue_of, together, in_order, amount_sum, stronger, glue_sum, part_by_part, turned, IsGlueWithin};

use crate::arithmetic::{MAX_DIMENSION, add, over, times};
use crate::fault::NumFault;
use crate::scaled::Scaled;

/// How strongly glue stretches or shrinks: any amount of a higher order outweighs all amounts of a lower one.
#[derive(Clone, Copy, Debug, PartialEq, Eq, PartialOrd, Ord)]
pub enum Order {
    Pt,
    Fil,
    Fill,
    Filll,
}

/// What glue may stretch or shrink by. An amount of order `Fil`, `Fill` or `Filll` counts `fil`s as a dimension
/// counts points.
#[derive(Clone, Copy, Debug, PartialEq, Eq)]
pub struct Amount {
    pub value: Scaled,
    pub order: Order,
}

impl Amount {
    /// Nothing.
    pub const ZERO: Amount = Amount {
        value: Scaled(0),
        order: Order::Pt,
    };

    /// The sum: amounts of one order add. Else the one of the higher order stays, unless it is 0 and the other
    /// isn't; where both are 0, it is 0 of order `Pt`.
    ///
    /// # Errors
    ///
    /// `Overflow` exactly where amounts of one order add to more than ±2147483647.
    pub fn plus(self, other: Amount) -> Result<Amount, NumFault>
        ensures value { result ≡ amount_sum self other }
        ensures within { IsWithin self.value.0 → IsWithin other.value.0 → IfOk result (λ amount. IsWithin amount.value.0) }
    {
        if self.order == other.order {
            in_order(self.order, add(self.value.0, other.value.0))
        } else {
            Ok(self.stronger(other))
        }
    }

    // The one of two amounts of different orders that stays.
    fn stronger(self, other: Amount) -> Amount
        ensures value { result ≡ stronger self other }
        ensures within { IsWithin self.value.0 → IsWithin other.value.0 → IsWithin result.value.0 }
    {
        match (self.value.0, other.value.0) {
            (0, 0) => Amount::ZERO,
            (0, _) => other,
            (_, 0) => self,
            _ if self.order < other.order => other,
            _ => self,
        }
    }
}

/// A width, and what it may stretch and shrink by, each with its order.
#[derive(Clone, Copy, Debug, PartialEq, Eq)]
pub struct Glue {
    pub width: Scaled,
    pub stretch: Scaled,
    pub stretch_order: Order,
    pub shrink: Scaled,
    pub shrink_order: Order,
}

impl Glue {
    /// A width with what it may stretch and shrink by.
    pub fn new(width: Scaled, stretch: Amount, shrink: Amount) -> Glue
        ensures { result ≡ glue_of width stretch shrink }
    {
        Glue {
            width,
            stretch: stretch.value,
            stretch_order: stretch.order,
            shrink: shrink.value,
            shrink_order: shrink.order,
        }
    }

    /// What it may stretch by.
    pub fn stretch_amount(self) -> Amount
        ensures { result ≡ record { value = self.stretch; order = self.stretch_order } }
    {
        Amount {
            value: self.stretch,
            order: self.stretch_order,
        }
    }

    /// What it may shrink by.
    pub fn shrink_amount(self) -> Amount
        ensures { result ≡ record { value = self.shrink; order = self.shrink_order } }
    {
        Amount {
            value: self.shrink,
            order: self.shrink_order,
        }
    }

    /// The sum: widths add, and so do what both stretch by and what both shrink by.
    ///
    /// # Errors
    ///
    /// `Overflow` exactly where one of the three sums passes ±2147483647.
    pub fn plus(self, other: Glue) -> Result<Glue, NumFault>
        ensures value { result ≡ glue_sum self other }
        ensures within { IsGlueWithin self → IsGlueWithin other → IfOk result IsGlueWithin }
    {
        together(
            add(self.width.0, other.width.0),
            self.stretch_amount().plus(other.stretch_amount()),
            self.shrink_amount().plus(other.shrink_amount()),
        )
    }

    /// The glue with all three parts turned.
    pub fn negated(self) -> Glue
        requires { IsGlueWithin self }
        ensures value { result ≡ turned self }
        ensures within { IsGlueWithin result }
    {
        Glue {
            width: self.width.negated(),
            stretch: self.stretch.negated(),
            shrink: self.shrink.negated(),
            ..self
        }
    }

    /// The glue with all three parts multiplied.
    ///
    /// # Errors
    ///
    /// `Overflow` exactly where one of them passes ±1073741823.
    pub fn times(self, n: i32) -> Result<Glue, NumFault>
        ensures value { result ≡ part_by_part (λ part. bounded NumFault.Overflow MAX_DIMENSION (part *ℤ n)) self }
        ensures within { IfOk result IsGlueWithin }
    {
        together(
            times(self.width.0, n, MAX_DIMENSION),
            in_order(self.stretch_order, times(self.stretch.0, n, MAX_DIMENSION)),
            in_order(self.shrink_order, times(self.shrink.0, n, MAX_DIMENSION)),
        )
    }

    /// The glue with all three parts divided, each rounded towards 0.
    ///
    /// # Errors
    ///
    /// `Overflow` exactly where `n` is 0, or one of them passes ±2147483647.
    pub fn over(self, n: i32) -> Result<Glue, NumFault>
        ensures value { result ≡ part_by_part (λ part. divided part n) self }
        ensures within { IfOk result IsGlueWithin }
    {
        together(
            over(self.width.0, n),
            in_order(self.stretch_order, over(self.stretch.0, n)),
            in_order(self.shrink_order, over(self.shrink.0, n)),
        )
    }
}

// An amount of this order, unless its value is a fault.
fn in_order(order: Order, value: Result<i32, NumFault>) -> Result<Amount, NumFault>
    ensures value { result ≡ in_order order value }
    ensures within { IfOk value IsWithin → IfOk result (λ amount. IsWithin amount.value.0) }
{
    Ok(Amount {
        value: Scaled(value?),
        order,
    })
}

// Glue of three parts, unless one of them is a fault.
fn together(
    width: Result<i32, NumFault>,
    stretch: Result<Amount, NumFault>,
    shrink: Result<Amount, NumFault>,
) -> Result<Glue, NumFault>
    ensures value { result ≡ together width stretch shrink }
    ensures within { IfOk width IsWithin → IfOk stretch (λ a. IsWithin a.value.0) → IfOk shrink (λ a. IsWithin a.value.0) → IfOk result IsGlueWithin }
{
    Ok(Glue::new(Scaled(width?), stretch?, shrink?))
}
