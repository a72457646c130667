//! Conditionals: their tests, the text that they skip, and the words that end their parts.

ghost use Rattle.std.specs.Prelude.{◌≡◌, ◌-◌, [], ◌∷◌, None, length, take, slice_set, IfOk, OnOk};
ghost use Rattle.texml_base.specs.Outside.{Shelf};
ghost use Rattle.texml_token.specs.Numbers.{Table, token_at, tokens_at, TokenWithin};
ghost use Rattle.texml_scope.specs.Numbers.{meaning_at};
ghost use Rattle.texml_scope.specs.Equality.{meaning_eq};
ghost use Rattle.texml_expand.specs.Take.{means};
ghost use Rattle.texml_expand.specs.Expand.{level};
ghost use Rattle.texml_expand.specs.Fronts.{inner_passed, fixed as FIXED, SkipsToken};
ghost use Rattle.texml_expand.specs.Conditionals.{open_test as spec_open_test, face as spec_face, face_of as spec_face_of, frozen_face as spec_frozen_face, first_code as spec_first_code, word_comes as spec_word_comes, next_face as spec_next_face, two_faces as spec_two_faces, same_meanings as spec_same_meanings, compares as spec_compares, amount as spec_amount, relation as spec_relation, compared as spec_compared, is_odd as spec_is_odd, tested as spec_tested, skipped as spec_skipped, seek as spec_seek, chosen as spec_chosen, conditional as spec_conditional, part_end as spec_part_end};
ghost use Rattle.texml_expand.specs.Fronts.{gift_at, GiftWithin};
ghost use Rattle.texml_expand.specs.Held.{world_in, Sound, Kept, Progress, IsAtLimit, ok_at, read_at, Owns, SameFiles, Shrinks};
ghost use Rattle.texml_expand.specs.Contract.{Local, outside, files_at, stop_after};
ghost use Rattle.texml_expand.specs.Hearing.{hears, hears_part};
ghost use Rattle.texml_expand.specs.Doing.{Does, Gets};

use super::Engine;
use super::expanding::{FIXED, Gift, frozen_as};
use crate::conditional::{
    Choice, Face, Met, NO_CATEGORY, NO_CODE, Sought, Test, choose, choose_case, meets,
};
use crate::gathering::Gathering;
use crate::stop::Stop;
use std::alloc::{AllocError, Global};
use texml_base::Files;
use texml_cond::{Allow, Bound, Skip, SkipStep, Word};
use texml_input::Read;
use texml_scope::{Meaning, same_meaning};
use texml_token::{Token, Tokens, category, fault_code};
use texml_watch::Teller;

impl Engine {
    // A conditional: its test is read, and the text that it doesn't choose is skipped.
    #[cycle(expanding)]
    pub(super) fn conditional<F: Files, T: Teller>(
        &mut self,
        files: &mut F,
        tell: &mut T,
        test: Test,
        deep: usize,
    ) -> Result<Gift, Stop>
        requires running { self.old.stop ≡ None }
        requires sound { Sound self.old }
        requires owns { Owns (F.shelf files.old) self.old }
        ensures does { Does (hears T.wanting T.heard) (hears_part T.wanting T.part)
            (λ n. spec_conditional (level n) test) (ok_at (gift_at self.new.names) result) self.old self.new (outside (F.shelf files.old) (F.faults files.old) (T.faults tell.old) (T.loan tell.old)) (outside (F.shelf files.new) (F.faults files.new) (T.faults tell.new) (T.loan tell.new)) tell.old tell.new }
        ensures lower { OnOk result (Shrinks 0 (F.shelf files.old) self.old (F.shelf files.new) self.new) }
        ensures within { IfOk result (GiftWithin (length self.new.names)) }
    {
        let at = self.open_test()?;
        let choice = self.tested(files, tell, test, deep)?;
        self.chosen(files, at, choice)?;
        Ok(Gift::Puts(Tokens::new(self.alloc)))
    }

    // What a test chooses.
    #[cycle(expanding)]
    fn tested<F: Files, T: Teller>(
        &mut self,
        files: &mut F,
        tell: &mut T,
        test: Test,
        deep: usize,
    ) -> Result<Choice, Stop>
        requires running { self.old.stop ≡ None }
        requires sound { Sound self.old }
        requires owns { Owns (F.shelf files.old) self.old }
        ensures does { Does (hears T.wanting T.heard) (hears_part T.wanting T.part)
            (λ n. spec_tested (level n) test) result self.old self.new (outside (F.shelf files.old) (F.faults files.old) (T.faults tell.old) (T.loan tell.old)) (outside (F.shelf files.new) (F.faults files.new) (T.faults tell.new) (T.loan tell.new)) tell.old tell.new }
        ensures lower { OnOk result (Shrinks 0 (F.shelf files.old) self.old (F.shelf files.new) self.new) }
    {
        match test {
            Test::If => {
                let (a, b) = self.two_faces(files, tell, deep)?;
                Ok(choose(a.code == b.code))
            }
            Test::IfCat => {
                let (a, b) = self.two_faces(files, tell, deep)?;
                Ok(choose(a.category == b.category))
            }
            Test::IfX => {
                let same = self.same_meanings(files)?;
                Ok(choose(same))
            }
            Test::IfNum => {
                let holds = self.compared(files, tell, false, deep)?;
                Ok(choose(holds))
            }
            Test::IfDim => {
                let holds = self.compared(files, tell, true, deep)?;
                Ok(choose(holds))
            }
            Test::IfOdd => {
                let number = self.int(files, tell, deep)?;
                Ok(choose(is_odd(number)))
            }
            Test::IfTrue => Ok(choose(true)),
            Test::IfFalse => Ok(choose(false)),
            Test::IfCase => {
                let number = self.int(files, tell, deep)?;
                Ok(choose_case(number))
            }
        }
    }

    // What `\if` and `\ifcat` see of the next two tokens.
    #[cycle(expanding)]
    fn two_faces<F: Files, T: Teller>(
        &mut self,
        files: &mut F,
        tell: &mut T,
        deep: usize,
    ) -> Result<(Face, Face), Stop>
        requires running { self.old.stop ≡ None }
        requires sound { Sound self.old }
        requires owns { Owns (F.shelf files.old) self.old }
        ensures does { Does (hears T.wanting T.heard) (hears_part T.wanting T.part)
            (λ n. spec_two_faces (level n)) result self.old self.new (outside (F.shelf files.old) (F.faults files.old) (T.faults tell.old) (T.loan tell.old)) (outside (F.shelf files.new) (F.faults files.new) (T.faults tell.new) (T.loan tell.new)) tell.old tell.new }
        ensures lower { OnOk result (Shrinks 0 (F.shelf files.old) self.old (F.shelf files.new) self.new) }
    {
        let first = self.next_face(files, tell, deep)?;
        let second = self.next_face(files, tell, deep)?;
        Ok((first, second))
    }

    // What `\if` and `\ifcat` see of the next token that isn't expanded.
    #[cycle(expanding)]
    fn next_face<F: Files, T: Teller>(
        &mut self,
        files: &mut F,
        tell: &mut T,
        deep: usize,
    ) -> Result<Face, Stop>
        requires running { self.old.stop ≡ None }
        requires sound { Sound self.old }
        requires owns { Owns (F.shelf files.old) self.old }
        ensures does { Does (hears T.wanting T.heard) (hears_part T.wanting T.part)
            (λ n. spec_next_face (level n)) result self.old self.new (outside (F.shelf files.old) (F.faults files.old) (T.faults tell.old) (T.loan tell.old)) (outside (F.shelf files.new) (F.faults files.new) (T.faults tell.new) (T.loan tell.new)) tell.old tell.new }
        ensures lower { OnOk result (Shrinks 0 (F.shelf files.old) self.old (F.shelf files.new) self.new) }
    {
        let read = match self.fetch_on(files, tell, deep)? {
            Some(read) => read,
            None => return Err(self.bare_fault(fault_code::FILE_ENDED)),
        };
        match self.face(read) {
            Ok(face) => Ok(face),
            Err(_) => Err(self.no_memory()),
        }
    }

    // Whether two numbers, or two dimensions, stand in the relation between them.
    #[cycle(expanding)]
    fn compared<F: Files, T: Teller>(
        &mut self,
        files: &mut F,
        tell: &mut T,
        dimensions: bool,
        deep: usize,
    ) -> Result<bool, Stop>
        requires running { self.old.stop ≡ None }
        requires sound { Sound self.old }
        requires owns { Owns (F.shelf files.old) self.old }
        ensures does { Does (hears T.wanting T.heard) (hears_part T.wanting T.part)
            (λ n. spec_compared (level n) dimensions) result self.old self.new (outside (F.shelf files.old) (F.faults files.old) (T.faults tell.old) (T.loan tell.old)) (outside (F.shelf files.new) (F.faults files.new) (T.faults tell.new) (T.loan tell.new)) tell.old tell.new }
        ensures lower { OnOk result (Shrinks 0 (F.shelf files.old) self.old (F.shelf files.new) self.new) }
    {
        let a = self.amount(files, tell, dimensions, deep)?;
        let relation = self.relation(files, tell, deep)?;
        let b = self.amount(files, tell, dimensions, deep)?;
        Ok(compares(relation, a, b))
    }

    // A number, or a dimension by its number of sp.
    #[cycle(expanding)]
    fn amount<F: Files, T: Teller>(
        &mut self,
        files: &mut F,
        tell: &mut T,
        dimension: bool,
        deep: usize,
    ) -> Result<i32, Stop>
        requires running { self.old.stop ≡ None }
        requires sound { Sound self.old }
        requires owns { Owns (F.shelf files.old) self.old }
        ensures does { Does (hears T.wanting T.heard) (hears_part T.wanting T.part)
            (λ n. spec_amount (level n) dimension) result self.old self.new (outside (F.shelf files.old) (F.faults files.old) (T.faults tell.old) (T.loan tell.old)) (outside (F.shelf files.new) (F.faults files.new) (T.faults tell.new) (T.loan tell.new)) tell.old tell.new }
        ensures lower { OnOk result (Shrinks 0 (F.shelf files.old) self.old (F.shelf files.new) self.new) }
    {
        if !dimension {
            return self.int(files, tell, deep);
        }
        let value = self.dimension(files, tell, deep)?;
        Ok(value.0)
    }

    // The code of the relation that comes next.
    #[cycle(expanding)]
    fn relation<F: Files, T: Teller>(
        &mut self,
        files: &mut F,
        tell: &mut T,
        deep: usize,
    ) -> Result<u32, Stop>
        requires running { self.old.stop ≡ None }
        requires sound { Sound self.old }
        requires owns { Owns (F.shelf files.old) self.old }
        ensures does { Does (hears T.wanting T.heard) (hears_part T.wanting T.part)
            (λ n. spec_relation (level n)) result self.old self.new (outside (F.shelf files.old) (F.faults files.old) (T.faults tell.old) (T.loan tell.old)) (outside (F.shelf files.new) (F.faults files.new) (T.faults tell.new) (T.loan tell.new)) tell.old tell.new }
        ensures lower { OnOk result (Shrinks 0 (F.shelf files.old) self.old (F.shelf files.new) self.new) }
    {
        let list = self.gather(files, tell, Gathering::Relation, deep)?;
        Ok(first_code(list.as_slice()))
    }

    // One more conditional is open, whose test is read next. Its place.
    fn open_test(&mut self) -> Result<usize, Stop>
        requires running { self.old.stop ≡ None }
        requires sound { Sound self.old }
        ensures opens { Local spec_open_test result self.old self.new }
        ensures kept { self.new.stop ≡ stop_after result }
        ensures progress { Progress self.old self.new }
        ensures limit { IsAtLimit result self.new }
        ensures keeps { OnOk result (Kept self.old self.new) }
        ensures lower { OnOk result ((shelf : Shelf) → Shrinks 0 shelf self.old shelf self.new) }
        ensures files { SameFiles self.old self.new }
    {
        match self.conditionals.begin() {
            Ok(at) => Ok(at),
            Err(_) => Err(self.no_memory()),
        }
    }

    // What `\if` and `\ifcat` see of a token that was fetched.
    fn face(&self, read: Read) -> Result<Face, AllocError>
        requires sound { Sound self.now }
        requires token { TokenWithin (length self.now.names) read.token }
        ensures { IfOk result (λ face. face ≡ spec_face (world_in self.now) (read_at self.now.names read)) }
    {
        if !read.frozen {
            let meaning = self.means(read.token)?;
            return Ok(face_of(&meaning));
        }
        self.frozen_face(read.token)
    }

    // The same of a token that is kept from being expanded.
    fn frozen_face(&self, token: Token) -> Result<Face, AllocError>
        requires sound { Sound self.now }
        requires token { TokenWithin (length self.now.names) token }
        ensures { IfOk result (λ face. face ≡ spec_frozen_face (world_in self.now) (token_at self.now.names token)) }
    {
        if let Token::Active(code) = token {
            return Ok(Face {
                code,
                category: category::ACTIVE,
            });
        }
        let meaning = self.meaning(token)?;
        let counted = self.means(frozen_as(token, meaning))?;
        Ok(face_of(&counted))
    }

    // Whether the next two tokens mean the same, unexpanded.
    fn same_meanings<F: Files>(&mut self, files: &mut F) -> Result<bool, Stop>
        requires running { self.old.stop ≡ None }
        requires sound { Sound self.old }
        requires owns { Owns (F.shelf files.old) self.old }
        ensures gets { Gets spec_same_meanings result self.old self.new (files_at (F.shelf files.old) (F.faults files.old)) (files_at (F.shelf files.new) (F.faults files.new)) }
        ensures lower { OnOk result (Shrinks 0 (F.shelf files.old) self.old (F.shelf files.new) self.new) }
    {
        let first = self.one_token(files)?;
        let second = self.one_token(files)?;
        match self.same_meaning(first, second) {
            Ok(same) => Ok(same),
            Err(_) => Err(self.no_memory()),
        }
    }

    // Whether two tokens mean the same now.
    fn same_meaning(&self, a: Token, b: Token) -> Result<bool, AllocError>
        requires sound { Sound self.now }
        requires a { TokenWithin (length self.now.names) a }
        requires b { TokenWithin (length self.now.names) b }
        ensures { IfOk result (λ same. same ≡ meaning_eq (means (world_in self.now) (token_at self.now.names a)) (means (world_in self.now) (token_at self.now.names b))) }
    {
        let first = self.means(a)?;
        let second = self.means(b)?;
        Ok(same_meaning(&first, &second))
    }

    // The text that a test chooses comes next.
    fn chosen<F: Files>(&mut self, files: &mut F, at: usize, choice: Choice) -> Result<(), Stop>
        requires running { self.old.stop ≡ None }
        requires sound { Sound self.old }
        requires owns { Owns (F.shelf files.old) self.old }
        ensures gets { Gets (spec_chosen at choice) result self.old self.new (files_at (F.shelf files.old) (F.faults files.old)) (files_at (F.shelf files.new) (F.faults files.new)) }
        ensures lower { OnOk result (Shrinks 0 (F.shelf files.old) self.old (F.shelf files.new) self.new) }
    {
        match choice {
            Choice::Comes(limit) => {
                self.bound(at, limit);
                Ok(())
            }
            Choice::Skips(sought) => self.seek(files, at, sought),
        }
    }

    // Skips text up to what is sought for the conditional of this place.
    fn seek<F: Files>(&mut self, files: &mut F, at: usize, sought: Sought) -> Result<(), Stop>
        requires running { self.old.stop ≡ None }
        requires sound { Sound self.old }
        requires owns { Owns (F.shelf files.old) self.old }
        ensures gets { Gets (spec_seek at sought) result self.old self.new (files_at (F.shelf files.old) (F.faults files.old)) (files_at (F.shelf files.new) (F.faults files.new)) }
        ensures lower { OnOk result (Shrinks 0 (F.shelf files.old) self.old (F.shelf files.new) self.new) }
    {
        let mut sought = sought;
        'words: loop {
            let word = self.skipped(files)?;
            if self.conditionals.len().saturating_sub(at) > 1 {
                self.pass_inner(word);
                continue;
            }
            match meets(sought, word) {
                Met::Ends => {
                    self.close();
                    return Ok(());
                }
                Met::Chooses(limit) => {
                    self.bound(at, limit);
                    return Ok(());
                }
                Met::Forbidden => return Err(self.bare_fault(fault_code::EXTRA_COND)),
                Met::Passes(next) => sought = next,
            }
        }
    }

    // Skips text up to the next word that doesn't belong to a conditional in it.
    fn skipped<F: Files>(&mut self, files: &mut F) -> Result<Word, Stop>
        requires running { self.old.stop ≡ None }
        requires sound { Sound self.old }
        requires owns { Owns (F.shelf files.old) self.old }
        ensures gets { Gets spec_skipped result self.old self.new (files_at (F.shelf files.old) (F.faults files.old)) (files_at (F.shelf files.new) (F.faults files.new)) }
        ensures lower { OnOk result (Shrinks 1 (F.shelf files.old) self.old (F.shelf files.new) self.new) }
        ensures begun { self.new.begun ≡ self.old.begun }
    {
        let mut skip = Skip::new();
        'tokens: loop {
            let token = self.inner_token(files)?;
            match self.skip_token(&mut skip, token) {
                Ok(SkipStep::More) => {}
                Ok(SkipStep::Reached(word)) => return Ok(word),
                Ok(SkipStep::TooDeep) => return Err(self.bare_fault(fault_code::DEPTH)),
                Err(_) => return Err(self.no_memory()),
            }
        }
    }

    // What a token decides in skipped text.
    fn skip_token(&self, skip: &mut Skip, token: Token) -> Result<SkipStep, AllocError>
        requires sound { Sound self.now }
        requires token { TokenWithin (length self.now.names) token }
        ensures { IfOk result (λ step. SkipsToken self.now.names (means (world_in self.now) (token_at self.now.names token)) skip.old step skip.new) }
    {
        let meaning = self.means(token)?;
        Ok(skip.feed(&meaning))
    }

    // A word that comes by itself: where it may, the conditional goes on behind its end, or is closed; while a test is read, the
    // fixed `\relax` comes before the word.
    pub(super) fn part_end<F: Files>(
        &mut self,
        files: &mut F,
        token: Token,
        word: Word,
    ) -> Result<Gift, Stop>
        requires running { self.old.stop ≡ None }
        requires sound { Sound self.old }
        requires owns { Owns (F.shelf files.old) self.old }
        requires token { TokenWithin (length self.old.names) token }
        ensures gets { Gets (spec_part_end (token_at self.old.names token) word) (ok_at (gift_at self.new.names) result) self.old self.new (files_at (F.shelf files.old) (F.faults files.old)) (files_at (F.shelf files.new) (F.faults files.new)) }
        ensures lower { OnOk result (Shrinks 0 (F.shelf files.old) self.old (F.shelf files.new) self.new) }
        ensures within { IfOk result (GiftWithin (length self.new.names)) }
    {
        match self.conditionals.allow(word) {
            Allow::Extra => Err(self.bare_fault(fault_code::EXTRA_COND)),
            Allow::Relax => match relaxed(self.alloc, token) {
                Ok(list) => Ok(Gift::Puts(list)),
                Err(_) => Err(self.no_memory()),
            },
            Allow::Go => {
                self.word_comes(files, word)?;
                Ok(Gift::Puts(Tokens::new(self.alloc)))
            }
        }
    }

    // A word that may come: `\fi` closes the innermost conditional, and behind another one the text up to it goes.
    fn word_comes<F: Files>(&mut self, files: &mut F, word: Word) -> Result<(), Stop>
        requires running { self.old.stop ≡ None }
        requires sound { Sound self.old }
        requires owns { Owns (F.shelf files.old) self.old }
        ensures gets { Gets (spec_word_comes word) result self.old self.new (files_at (F.shelf files.old) (F.faults files.old)) (files_at (F.shelf files.new) (F.faults files.new)) }
        ensures lower { OnOk result (Shrinks 0 (F.shelf files.old) self.old (F.shelf files.new) self.new) }
    {
        match word {
            Word::Fi => {
                self.close();
                Ok(())
            }
            _ => {
                let at = self.conditionals.len().saturating_sub(1);
                self.seek(files, at, Sought::End)
            }
        }
    }

    // A word of a conditional that began inside the test: `\fi` closes the innermost one, and another word is passed over.
    fn pass_inner(&mut self, word: Word)
        ensures { self.new ≡ record self.old { conditionals = inner_passed word self.old.conditionals } }
    {
        match word {
            Word::Fi => self.close(),
            _ => {}
        }
    }

    // The innermost conditional is closed, if one is open.
    fn close(&mut self)
        ensures { self.new ≡ record self.old { conditionals = take (length self.old.conditionals - 1) self.old.conditionals } }
    {
        if !self.conditionals.is_empty() {
            self.conditionals.close();
        }
    }

    // The conditional of this place, if it is open, has this limit.
    fn bound(&mut self, at: usize, limit: Bound)
        ensures { self.new ≡ record self.old { conditionals = slice_set self.old.conditionals at limit } }
    {
        if at < self.conditionals.len() {
            self.conditionals.bound(at, limit);
        }
    }
}

// What `\if` and `\ifcat` see of a meaning.
fn face_of(meaning: &Meaning) -> Face
    ensures { (texts : Table) → result ≡ spec_face_of (meaning_at texts meaning.now) }
{
    match meaning {
        Meaning::Char(code, category) => Face {
            code: *code,
            category: *category,
        },
        _ => Face {
            code: NO_CODE,
            category: NO_CATEGORY,
        },
    }
}

// The code of the first token, where that is a character.
fn first_code(list: &[Token]) -> u32
    ensures { (texts : Table) → result ≡ spec_first_code (tokens_at texts list.now) }
{
    match list.first() {
        Some(Token::Char(code, _)) => *code,
        _ => NO_CODE,
    }
}

// Whether numbers stand in the relation of this code.
fn compares(relation: u32, a: i32, b: i32) -> bool
    ensures { result ≡ spec_compares relation a b }
{
    if relation == '<' as u32 {
        a < b
    } else if relation == '=' as u32 {
        a == b
    } else {
        b < a
    }
}

// Whether a number is odd.
fn is_odd(number: i32) -> bool
    ensures { result ≡ spec_is_odd number }
{
    number.unsigned_abs() % 2 == 1
}

// The fixed `\relax` before a token.
fn relaxed(alloc: Global, token: Token) -> Result<Tokens, AllocError>
    ensures { IfOk result (λ list. list ≡ FIXED ∷ token ∷ []) }
{
    let mut list = Tokens::new(alloc);
    list.push(FIXED)?;
    list.push(token)?;
    Ok(list)
}
