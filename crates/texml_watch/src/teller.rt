//! Who is told of completed expansions.
ghost use Rattle.std.specs.Prelude.{◌≡◌, ℕ, Bool, MatchResult};
ghost use Rattle.texml_base.specs.Outside.{HasTroubleCause};
ghost use Rattle.texml_watch.specs.declared.record.Record.{Record};

use crate::record::Record;
use texml_base::Trouble;

/// Who is told of each completed expansion, once, where it wants that.
pub trait Teller {
    /// Whether it wants records.
    ghost wanting: { Self → Bool };

    /// What a record does that it hears: what it was, the record, and what it is then.
    ghost heard: { Self → Record → Self → Type 0 };

    /// What a record does that it was told in part.
    ghost part: { Self → Record → Self → Type 0 };

    /// How often it has failed. Only a telling that answers `Failed` changes it. It ends at the greatest u64.
    ghost faults: { Self → ℕ };

    /// Which loan it holds: that of a sink, or 0 where it holds none. Being told changes nothing in that.
    ghost loan: { Self → ℕ };

    /// Whether it wants records. Being told changes nothing in that.
    fn wants(&self) -> bool
        ensures { result ≡ wanting self.now };

    /// Tells it a record, which it then has heard, or at an error in part.
    ///
    /// # Errors
    ///
    /// `Failed` only where its count of faults rose in this call, and `NoMemory` where memory was refused.
    fn tell(&mut self, news: &Record) -> Result<(), Trouble>
        ensures wants { wanting self.new ≡ wanting self.old }
        ensures loan { loan self.new ≡ loan self.old }
        ensures told { MatchResult result (λ _. heard self.old news.now self.new) (λ _. part self.old news.now self.new) }
        ensures cause { HasTroubleCause (faults self.old) (faults self.new) result };
}
