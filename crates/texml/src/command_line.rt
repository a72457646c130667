//! The words that a program was started with.
ghost use Rattle.std.specs.Prelude.{ℕ, List, IfSome, None};
ghost use Rattle.std.specs.declared.option.Option.{Option};
ghost use Rattle.std.specs.Io.{WritesAtMost};
ghost use Rattle.texml.specs.Words.{GivesWord};

use std::env::FillError;
use std::rt::Env;

/// The words of a command line, with the name of the program in front.
pub trait CommandLine {
    /// The words, where they are told.
    ghost told: { Self → Option (List (List ℕ)) };

    /// Copies the word at a place to the start of `into`, and answers its length.
    ///
    /// # Errors
    ///
    /// `NotPresent` behind the last word, and `TooLong` where the word is longer than `into`.
    fn word(&self, at: usize, into: &mut [u8]) -> Result<usize, FillError>
        ensures bound { WritesAtMost result into.new }
        ensures word { IfSome (told self.now) (λ words. GivesWord words at result into.new) };
}

/// The words that the system passes. They are not told.
#[derive(Drop)]
pub struct SystemWords<'a, E: Env>(pub &'a E);

impl<E: Env> CommandLine for SystemWords<'_, E> {
    ghost told = { λ _. None };

    fn word(&self, at: usize, into: &mut [u8]) -> Result<usize, FillError> {
        self.0.arg(at, into)
    }
}
