//! A teller for runs that tell nobody.
ghost use Rattle.std.specs.Prelude.{◌≡◌, false};

use crate::record::Record;
use crate::teller::Teller;
use texml_base::Trouble;

/// It wants no record, and one that it is told nevertheless changes nothing. It never fails.
#[derive(Clone, Copy, Debug, Drop)]
pub struct Nobody;

impl Teller for Nobody {
    ghost wanting = { λ _. false };

    ghost heard = { λ old _ new. new ≡ old };

    ghost part = { λ _ _ _. ⊥ };

    ghost faults = { λ _. 0 };

    ghost loan = { λ _. 0 };

    fn wants(&self) -> bool {
        false
    }

    fn tell(&mut self, news: &Record) -> Result<(), Trouble> {
        Ok(())
    }
}
