//! The law of the definition of chains.
ghost use Rattle.texml_model.specs.Chain.{ChainsAreFirst};

/// For each parent of a table the chain leads to the child, and of all elements that do none are fewer, and none as many
/// come first in table order; where there is no chain, no elements lead there.
pub fn chains_are_first()
    ensures { ChainsAreFirst }
{}
