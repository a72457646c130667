//! Keywords.

ghost use Rattle.std.specs.Prelude.{◌≡◌, ◌∷◌, ◌≤◌, ◌<◌, ◌+◌, List, length, get_or, true, false};
ghost use Rattle.texml_scan.specs.Grammar.{verdict, AtEnd};
ghost use Rattle.texml_scan.specs.Keyword.{is_letter, keyword};
ghost use Rattle.texml_scan.specs.Looks.{is_space};

use crate::looks::{Look, is_space};
use crate::steps::{Scan, ScanStep, ended};

/// A scanner of one keyword, whose letters may be of either case and of any category; spaces before it are
/// skipped, and stay skipped where it isn't there.
#[derive(Clone, Copy, Debug)]
pub struct KeywordScan<'a> {
    word: &'a [u8],
    at: usize,
    ghost inside: { at < length word.now },
    ghost short: { length word.now ≤ 255 },
}

// A small letter, or its capital.
pub(crate) fn is_letter(letter: u8, look: Look) -> bool
    ensures { result ≡ is_letter letter look }
{
    match look {
        Look::Character(code, _) => {
            code == u32::from(letter) || u64::from(code) + 32 == u64::from(letter)
        }
        _ => false,
    }
}

// What is found in the place of a letter: a space before the first one, the letter with more to come, the last letter, or none of these.
#[derive(Clone, Copy, Debug, PartialEq, Eq)]
pub(crate) enum Letter {
    Skipped,
    Next,
    Whole,
    Missing,
}

impl Letter {
    ghost use Rattle.texml_scan.specs.KeywordRest.{keyword_at, lettered};

    // What is found in the place of this letter of a word.
    pub(crate) fn at(word: &[u8], at: usize, look: Look) -> Letter
        requires { at < length word.now }
        ensures is { (more : List Look) → keyword_at at word.now (look ∷ more) ≡ lettered result at word.now look more }
        ensures letter { result ≡ Letter.Next → is_letter (get_or word.now at 0) look ≡ true }
        ensures first { result ≡ Letter.Next → at ≡ 0 → is_space look ≡ false }
        ensures within { result ≡ Letter.Next → at + 1 < length word.now }
        ensures end { AtEnd look (result ≡ Letter.Missing) }
    {
        if at == 0 && is_space(look) {
            Letter::Skipped
        } else if !is_letter(word[at], look) {
            Letter::Missing
        } else if at + 1 == word.len() {
            Letter::Whole
        } else {
            Letter::Next
        }
    }
}

impl<'a> KeywordScan<'a> {
    ghost use Rattle.texml_scan.specs.KeywordRest.{keyword_rest};

    /// A scanner that has seen nothing, of a word of 1 to 255 small letters.
    pub fn new(word: &'a [u8]) -> KeywordScan<'a>
        requires some { 1 ≤ length word.now }
        requires short { length word.now ≤ 255 }
        ensures { (more : List Look) → keyword_rest result more ≡ verdict (keyword word.now more) }
    {
        KeywordScan { word, at: 0 }
    }
}

impl<'a> Scan<bool> for KeywordScan<'a> {
    ghost use Rattle.texml_scan.specs.KeywordRest.{keyword_rest};

    ghost rest = { keyword_rest };

    fn feed(&mut self, look: Look) -> ScanStep<bool> {
        match Letter::at(self.word, self.at, look) {
            Letter::Skipped => ScanStep::More,
            Letter::Next => {
                self.at += 1;
                ScanStep::More
            }
            Letter::Whole => ScanStep::Done(true),
            Letter::Missing => ScanStep::DoneBack(false, (self.at + 1) as u8),
        }
    }

    fn raw(&self) -> bool {
        false
    }

    fn end(&self) -> ScanStep<bool> {
        ended(ScanStep::DoneBack(false, (self.at + 1) as u8))
    }
}
