//! Laws of the definitions of a run.
ghost use Rattle.std.specs.Prelude.{◌≡◌, ℕ, List};
ghost use Rattle.std.specs.declared.option.Option.{Option};
ghost use Rattle.texml_top.specs.Document.{GatheringKeepsTheDocument};
ghost use Rattle.texml_top.specs.Outcome.{OneOutcome};
ghost use Rattle.texml_top.specs.Table.{elements, AreNamed};
ghost use Rattle.texml_top.specs.Written.{written};

/// Whatever the words and the files are, a run has one outcome.
pub fn one_outcome()
    ensures { (words : List (List ℕ)) (contents : List ℕ → Option (List ℕ)) → OneOutcome words contents }
{}

/// A text that goes on as one operation makes the same document as its parts.
pub fn gathering_keeps_the_document()
    ensures { GatheringKeepsTheDocument }
{}

/// The table of elements is the one that the definitions write out.
#[tactic(auto, unfolding(crate::specs::Table::elements, crate::specs::Table::line_by))]
pub fn elements_are_written()
    ensures { elements ≡ written }
{}

/// The elements that digestion opens and closes are those of their names.
pub fn digested_elements_are_named()
    ensures { AreNamed }
{}
