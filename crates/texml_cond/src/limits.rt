//! The list of open conditionals.

ghost use Rattle.std.specs.Prelude.{◌≡◌, ◌<◌, ◌-◌, ◌↔◌, take, [], ◌∷◌, ◌++◌, length, slice_set, IsTrue, IfOk, OnOk, OnErr};
ghost use Rattle.texml_cond.specs.Limits.{allowed, allowed_by};

use std::alloc::{AllocError, Global};
use std::marker::Model;

/// The limit of an open conditional: which words may come for it. While its test is being read it is `Test`.
#[derive(Clone, Copy, Debug, PartialEq, Eq)]
pub enum Bound {
    Test,
    Fi,
    Else,
    Or,
}

/// A word that ends a part of a conditional.
#[derive(Clone, Copy, Debug, PartialEq, Eq)]
pub enum Word {
    Else,
    Or,
    Fi,
}

/// Whether a word may come: it may, or `\relax` comes before it, or it is one too many.
#[derive(Clone, Copy, Debug, PartialEq, Eq)]
pub enum Allow {
    Go,
    Relax,
    Extra,
}

/// The limits of the open conditionals, in the order in which they were begun: the innermost is the last.
#[derive(Debug, Drop)]
pub struct Conds {
    limits: Vec<Bound>,
}

impl Model for Conds {
    ghost use Rattle.std.specs.Prelude.{List};
    ghost use Rattle.texml_cond.specs.declared.limits.Bound.{Bound as BoundCode};

    ghost Value = { List BoundCode };

    ghost view = { λ c. c.limits.items };
}

impl Conds {
    /// No conditional is open. It takes no memory.
    pub fn new(alloc: Global) -> Conds
        ensures { result ≡ [] }
    {
        Conds {
            limits: Vec::new(alloc),
        }
    }

    /// Begins a conditional, whose test is read next, and gives its place in the list.
    ///
    /// # Errors
    ///
    /// `AllocError` where there is no memory. The list is then as before.
    pub fn begin(&mut self) -> Result<usize, AllocError>
        ensures ok { OnOk result (self.new ≡ self.old ++ Bound.Test ∷ []) }
        ensures place { IfOk result (λ at. at ≡ length self.old) }
        ensures err { OnErr result (self.new ≡ self.old) }
    {
        let at = self.limits.len();
        self.limits.push(Bound::Test)?;
        Ok(at)
    }

    /// Sets the limit of the conditional at this place.
    pub fn bound(&mut self, at: usize, to: Bound)
        requires { at < length self.old }
        ensures { self.new ≡ slice_set self.old at to }
    {
        self.limits[at] = to;
    }

    /// Closes the innermost conditional.
    pub fn close(&mut self)
        requires { 0 < length self.old }
        ensures { self.new ≡ take (length self.old - 1) self.old }
    {
        self.limits.truncate(self.limits.len() - 1);
    }

    /// Whether the word may come: `Relax` exactly where the test of the innermost conditional is being read, and `Extra`
    /// exactly where no conditional is open or its limit forbids the word.
    pub fn allow(&self, word: Word) -> Allow
        ensures { result ≡ allowed self.now word }
    {
        match self.limits.last() {
            None => Allow::Extra,
            Some(limit) => allow_by(*limit, word),
        }
    }

    /// How many conditionals are open.
    pub fn len(&self) -> usize
        ensures { result ≡ length self.now }
    {
        self.limits.len()
    }

    /// Whether no conditional is open.
    pub fn is_empty(&self) -> bool
        ensures { IsTrue result ↔ (self.now ≡ []) }
    {
        self.limits.is_empty()
    }
}

// Whether the word may come under this limit.
fn allow_by(limit: Bound, word: Word) -> Allow
    ensures { result ≡ allowed_by limit word }
{
    match (limit, word) {
        (Bound::Test, _) => Allow::Relax,
        (_, Word::Fi) | (Bound::Else | Bound::Or, Word::Else) | (Bound::Or, Word::Or) => Allow::Go,
        _ => Allow::Extra,
    }
}
