//! Skipped text.

ghost use Rattle.std.specs.Prelude.{◌≡◌, [], ◌∷◌, ◌++◌, List};
ghost use Rattle.texml_cond.specs.Skipping.{MeaningCode, part_of, part_at, is_fi, skip, Fed};

use crate::limits::Word;
use std::marker::Model;
use texml_scope::builtins::{ELSE, FI, OR};
use texml_scope::{Meaning, is_conditional};

/// So many more conditionals than end may not begin in one skipped text.
pub const DEEPEST: u32 = 1_000_000;

const _: () = prove!(DEEPEST == 1_000_000);

/// What the meaning of a token in skipped text decides: more is skipped, or this word is reached, or too many conditionals
/// have begun.
#[derive(Clone, Copy, Debug, PartialEq, Eq)]
pub enum SkipStep {
    More,
    Reached(Word),
    TooDeep,
}

/// What a token does in skipped text: it begins a conditional, or is one of the words, or is passed over.
#[derive(Clone, Copy, Debug, PartialEq, Eq)]
pub enum Part {
    Begins,
    Stops(Word),
    Passes,
}

/// Skips a text, one token after the other. It counts how many more conditionals have begun than ended.
#[derive(Debug, Drop)]
pub struct Skip {
    within: u32,
}

impl Model for Skip {
    ghost use Rattle.std.specs.Prelude.{ℕ, ◌<◌};
    ghost use Rattle.texml_cond.specs.declared.skipping.TheConstants.{DEEPEST};

    ghost Value = { ℕ };

    ghost view = { λ s. s.within };

    ghost invariant = { λ s. s.within < DEEPEST };
}

impl Skip {
    /// Nothing was skipped yet.
    pub fn new() -> Skip
        ensures { Fed [] result }
    {
        Skip { within: 0 }
    }

    /// Takes the meaning of the next token, and says what it decides behind those that were fed before. After another answer
    /// than `More` nothing more is said of it.
    pub fn feed(&mut self, meaning: &Meaning) -> SkipStep
        ensures decides { (seen : List MeaningCode) → Fed seen self.old → result ≡ skip (seen ++ meaning.now ∷ []) }
        ensures goes_on { (seen : List MeaningCode) → Fed seen self.old → result ≡ SkipStep.More → Fed (seen ++ meaning.now ∷ []) self.new }
    {
        match part_of(meaning) {
            Part::Begins => {
                if self.within == DEEPEST - 1 {
                    return SkipStep::TooDeep;
                }
                self.within += 1;
                SkipStep::More
            }
            Part::Stops(word) => {
                if self.within == 0 {
                    return SkipStep::Reached(word);
                }
                if ends(word) {
                    self.within -= 1;
                    return SkipStep::More;
                }
                SkipStep::More
            }
            Part::Passes => SkipStep::More,
        }
    }
}

// What a token of this meaning does in skipped text.
fn part_of(meaning: &Meaning) -> Part
    ensures { result ≡ part_of meaning.now }
{
    match meaning {
        Meaning::Builtin(place) => part_at(*place),
        _ => Part::Passes,
    }
}

// What the builtin of this place does in skipped text.
fn part_at(place: u16) -> Part
    ensures { result ≡ part_at place }
{
    if is_conditional(place) {
        return Part::Begins;
    }
    match place {
        ELSE => Part::Stops(Word::Else),
        OR => Part::Stops(Word::Or),
        FI => Part::Stops(Word::Fi),
        _ => Part::Passes,
    }
}

// Whether the word ends a conditional.
fn ends(word: Word) -> bool
    ensures { result ≡ is_fi word }
{
    matches!(word, Word::Fi)
}
