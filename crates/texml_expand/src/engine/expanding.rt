//! Fetching, expanding and looking at tokens for quantities: these lead back to each other.

ghost use Rattle.std.specs.Prelude.{true, false, ℕ, ◌≡◌, ◌+◌, ◌-◌, ◌≤◌, ◌∷◌, ◌++◌, Some, None, [], length, map, IfSome, IsSome, IfOk, OnOk, option_map, option_to_list, pos};
ghost use Rattle.std.specs.List.{All};
ghost use Rattle.texml_token.specs.Numbers.{token_at, tokens_at, TokenWithin, TokensWithin, OptionWithin};
ghost use Rattle.texml_scope.specs.Numbers.{meaning_at, MeaningWithin};
ghost use Rattle.texml_scan.specs.Grammar.{Expanded, Raw};
ghost use Rattle.texml_base.specs.Outside.{Shelf};
ghost use Rattle.texml_input.specs.Held.{Plain, Marked};
ghost use Rattle.texml_input.specs.Next.{Taken};
ghost use Rattle.texml_expand.specs.Take.{meaning_of};
ghost use Rattle.texml_expand.specs.State.{tell as spec_tell};
ghost use Rattle.texml_expand.specs.Calls.{expandable, Puts, Freezes};
ghost use Rattle.texml_input.specs.Rest.{Tok};
ghost use Rattle.texml_input.specs.Put.{put_code};
ghost use Rattle.texml_expand.specs.Begin.{finish_with};
ghost use Rattle.texml_expand.specs.Expand.{front_taken, begin, finish, record_of, level};
ghost use Rattle.texml_expand.specs.Expand.{front as spec_front, given as spec_given, fetch as spec_fetch, look as spec_look, expand_once as spec_expand_once, read_int as spec_read_int, read_dimen as spec_read_dimen, read_index as spec_read_index, decimal as spec_decimal, roman_numeral as spec_roman};
ghost use Rattle.texml_expand.specs.Quantities.{next_looked, as_it_counts, counts_as as spec_counts_as, int_text, dimension_text};
ghost use Rattle.texml_expand.specs.Variables.{variable_at as spec_variable_at};
ghost use Rattle.texml_expand.specs.Quantities.{next_internal as spec_next_internal, the as spec_the, internal as spec_internal, internal_of, look as look_in};
ghost use Rattle.texml_expand.specs.Fronts.{PutsTokens, EndsFront, gift_at, GiftWithin, front_at, front_count, FrontWithin, is_undefined as means_nothing, expandable_at, ExpandableWithin, builtin_in, expandable_in, frozen_in, looked_at as looked_at_by, LookedWithin};
ghost use Rattle.texml_expand.specs.VariableCodes.{internal_at, InternalWithin, HasNumber};
ghost use Rattle.texml_expand.specs.declared.engine.expanding.TheConstants.{DEEPEST};
ghost use Rattle.texml_expand.specs.Machine.{machine_rest};
ghost use Rattle.texml_expand.specs.Scanning.{Turned, MayGive};
ghost use Rattle.texml_expand.specs.Held.{state_of, world_in, Sound, Kept, Progress, IsAtLimit, ok_at, read_at, ReadWithin, Owns, Holding, SameFiles, Shrinks, Begun};
ghost use Rattle.texml_expand.specs.Spending.{SpendsBy};
ghost use Rattle.texml_expand.specs.Contract.{Local, AnswersKept, Stops, outside, files_at, stop_after};
ghost use Rattle.texml_expand.specs.Hearing.{hears, hears_part, Meets, FollowsTold};
ghost use Rattle.texml_expand.specs.Doing.{Does, Gets};

use super::{ESCAPE, Engine};
use crate::call::fill;
use crate::conditional::{Test, test_at};
use crate::internal::{Internal, held_of};
use crate::machine::{Machine, Scanned, Value};
use crate::stop::Stop;
use crate::variables::{Index, index_of, key_of, variable_at};
use std::alloc::AllocError;
use texml_base::{Files, Trouble};
use texml_cond::Word;
use texml_fixed::Scaled;
use texml_input::Read;
use texml_scan::{DimenScan, Held, IntScan, Look, looked_at};
use texml_scope::builtins::{
    CSNAME, ELSE, ENDINPUT, EXPANDAFTER, FI, INPUT, JOBNAME, NOEXPAND, NUMBER, OR, ROMANNUMERAL,
    STRING, THE,
};
use texml_scope::{Macro, Meaning};
use texml_token::{Bytes, Name, Token, Tokens, fault_code, show, spell};
use texml_watch::{Record, Teller};

// How many expansions may be open within each other.
const DEEPEST: usize = 400;

const _: () = prove!(DEEPEST == 400);

// How many internal quantities may be read within each other. Beyond that there is no stack: it is want of memory.
const DEEPEST_QUANTITY: usize = 1000;

// The fixed `\relax`.
pub(super) const FIXED: Token = Token::Named(Name(0));

// What can be expanded: the call of a macro, or a builtin.
#[derive(Drop)]
pub(super) enum Expandable {
    Call(Macro),
    ExpandAfter,
    NoExpand,
    CsName,
    String,
    Number,
    RomanNumeral,
    The,
    JobName,
    Input,
    EndInput,
    Conditional(Test),
    PartEnd(Word),
}

// What an expansion gives: tokens that go back, the body of a macro that does with arguments in it, or a token that goes back kept
// from being expanded.
#[derive(Drop)]
pub(super) enum Gift {
    Puts(Tokens),
    Fills(Tokens, Vec<Tokens>),
    Freezes(Token),
}

// What stands at the front: nothing, a token that isn't expanded, or one that is, and what it expands as.
#[derive(Drop)]
pub(super) enum Front {
    Nothing,
    Plain(Read),
    Expands(Token, Expandable),
}

/// A token that is looked at, and what it counts as: the fixed `\relax` where it is kept from being expanded and could be, or has
/// no meaning.
#[derive(Clone, Copy, Debug, PartialEq, Eq)]
pub struct Looked {
    pub token: Token,
    pub counts: Token,
}

// A token that was looked at for a quantity, and its look.
#[derive(Clone, Copy, Debug, Drop)]
pub(super) struct Seen {
    pub(super) token: Token,
    pub(super) look: Look,
}

impl Engine {
    /// Fetches the next token that can't be expanded: while the one that stands first can be, it is expanded. It answers
    /// `None` at the end of what is to be read. A token that is kept from being expanded counts as the fixed `\relax` where
    /// it could be, or has no meaning. Each completed expansion is told to `tell`, where that wants records, when it is
    /// completed (The TeXbook, chapter 20).
    ///
    /// # Errors
    ///
    /// `Tex` with fault 15 where an invalid character stands there, with fault 20 where a line is not UTF-8, with fault 1 about the
    /// spelling of a token without a meaning, with fault 4 where a file has ended inside a group that is absorbed with expanding, and
    /// with the faults of `expand_once`. `Limit` where one expansion too many would begin. `ReadFailed` and `TellFailed` only where the
    /// count of faults of `files` or `tell` rose in this call, `NoMemory` where memory was refused; the records told until then are the
    /// first of those that would be told. And the stop that is kept.
    #[inline(always)]
    pub fn fetch<F: Files, T: Teller>(
        &mut self,
        files: &mut F,
        tell: &mut T,
    ) -> Result<Option<Token>, Stop>
        requires sound { self.old.stop ≡ None → Sound self.old }
        requires owns { Owns (F.shelf files.old) self.old }
        ensures follows { self.old.stop ≡ None → FollowsTold (hears T.wanting T.heard) (hears_part T.wanting T.part) (F.shelf files.old) (λ n. spec_fetch n (state_of (F.shelf files.old) self.old))
            (ok_at (option_map (token_at self.new.names)) result) (state_of (F.shelf files.new) self.new) tell.old tell.new }
        ensures spends { self.old.stop ≡ None → SpendsBy (λ n. spec_fetch n (state_of (F.shelf files.old) self.old)) (ok_at (option_map (token_at self.new.names)) result) (F.shelf files.old) (F.shelf files.new) self.old self.new }
        ensures stops { self.old.stop ≡ None → Stops result (outside (F.shelf files.old) (F.faults files.old) (T.faults tell.old) (T.loan tell.old)) (outside (F.shelf files.new) (F.faults files.new) (T.faults tell.new) (T.loan tell.new)) self.new.stop }
        ensures lower { self.old.stop ≡ None → IfOk result (λ o. Shrinks (length (option_to_list o)) (F.shelf files.old) self.old (F.shelf files.new) self.new) }
        ensures progress { Progress self.old self.new }
        ensures limit { self.old.stop ≡ None → IsAtLimit result self.new }
        ensures keeps { self.old.stop ≡ None → OnOk result (Kept self.old self.new) }
        ensures within { self.old.stop ≡ None → IfOk result (OptionWithin (TokenWithin (length self.new.names))) }
        ensures stays { IfSome self.old.stop (λ stop. AnswersKept stop result × (self.new ≡ self.old) × (files.new ≡ files.old) × (tell.new ≡ tell.old)) }
        ensures holds { Holding (F.shelf files.old) (F.shelf files.new) self.old self.new }
    {
        self.running()?;
        match self.next_looked(files, tell, false, 0)? {
            Some(looked) => Ok(Some(looked.counts)),
            None => Ok(None),
        }
    }

    /// Fetches the next token that isn't expanded, as `fetch` does, and answers it as it is, with what it counts as. Where it goes
    /// back it isn't kept from being expanded any more.
    ///
    /// # Errors
    ///
    /// Those of `fetch`, with the same causes.
    pub fn look<F: Files, T: Teller>(
        &mut self,
        files: &mut F,
        tell: &mut T,
    ) -> Result<Option<Looked>, Stop>
        requires sound { self.old.stop ≡ None → Sound self.old }
        requires owns { Owns (F.shelf files.old) self.old }
        ensures follows { self.old.stop ≡ None → FollowsTold (hears T.wanting T.heard) (hears_part T.wanting T.part) (F.shelf files.old) (λ n. spec_look n (state_of (F.shelf files.old) self.old))
            (ok_at (option_map (looked_at_by self.new.names)) result) (state_of (F.shelf files.new) self.new) tell.old tell.new }
        ensures spends { self.old.stop ≡ None → SpendsBy (λ n. spec_look n (state_of (F.shelf files.old) self.old)) (ok_at (option_map (looked_at_by self.new.names)) result) (F.shelf files.old) (F.shelf files.new) self.old self.new }
        ensures stops { self.old.stop ≡ None → Stops result (outside (F.shelf files.old) (F.faults files.old) (T.faults tell.old) (T.loan tell.old)) (outside (F.shelf files.new) (F.faults files.new) (T.faults tell.new) (T.loan tell.new)) self.new.stop }
        ensures lower { self.old.stop ≡ None → IfOk result (λ o. Shrinks (length (option_to_list o)) (F.shelf files.old) self.old (F.shelf files.new) self.new) }
        ensures progress { Progress self.old self.new }
        ensures limit { self.old.stop ≡ None → IsAtLimit result self.new }
        ensures keeps { self.old.stop ≡ None → OnOk result (Kept self.old self.new) }
        ensures within { self.old.stop ≡ None → IfOk result (OptionWithin (LookedWithin (length self.new.names))) }
        ensures stays { IfSome self.old.stop (λ stop. AnswersKept stop result × (self.new ≡ self.old) × (files.new ≡ files.old) × (tell.new ≡ tell.old)) }
        ensures holds { Holding (F.shelf files.old) (F.shelf files.new) self.old self.new }
    {
        self.running()?;
        self.next_looked(files, tell, false, 0)
    }

    /// Expands a token once: its arguments are read, its tokens are put before what is to be read, and the expansion is told to
    /// `tell`, where that wants records (The TeXbook, chapter 20).
    ///
    /// # Errors
    ///
    /// `Tex` with fault 25 where 400 expansions or 100 files are open, or conditionals too deep in skipped text; of arguments with fault 5
    /// at a token that doesn't match the parameter text, 2 at a brace that ends a group which hasn't begun, and 3 at a `\par`
    /// that may not stand there; 4 where a text ends too early, 15 at an invalid character, 12 at a word of a conditional that
    /// isn't open, 13 where something else stands before `\endcsname` or in the name of a file, 19 where there is no file of its
    /// name, and those of `read_int` and `read_dimen`. `Limit` where
    /// one expansion too many would begin. `ReadFailed` and `TellFailed` only where the count of faults of `files` or `tell`
    /// rose in this call, `NoMemory` where memory was refused, and the stop that is kept.
    pub fn expand_once<F: Files, T: Teller>(
        &mut self,
        files: &mut F,
        tell: &mut T,
        token: Token,
    ) -> Result<(), Stop>
        requires sound { self.old.stop ≡ None → Sound self.old }
        requires owns { Owns (F.shelf files.old) self.old }
        requires token { self.old.stop ≡ None → TokenWithin (length self.old.names) token }
        requires expandable { self.old.stop ≡ None → IsSome (expandable (meaning_of (state_of (F.shelf files.old) self.old).world (token_at self.old.names token))) }
        ensures follows { self.old.stop ≡ None → FollowsTold (hears T.wanting T.heard) (hears_part T.wanting T.part) (F.shelf files.old)
            (λ n. spec_expand_once (token_at self.old.names token) n (state_of (F.shelf files.old) self.old)) result (state_of (F.shelf files.new) self.new) tell.old tell.new }
        ensures spends { self.old.stop ≡ None → SpendsBy (λ n. spec_expand_once (token_at self.old.names token) n (state_of (F.shelf files.old) self.old)) result (F.shelf files.old) (F.shelf files.new) self.old self.new }
        ensures stops { self.old.stop ≡ None → Stops result (outside (F.shelf files.old) (F.faults files.old) (T.faults tell.old) (T.loan tell.old)) (outside (F.shelf files.new) (F.faults files.new) (T.faults tell.new) (T.loan tell.new)) self.new.stop }
        ensures begins { self.old.stop ≡ None → OnOk result (Begun self.old self.new) }
        ensures progress { Progress self.old self.new }
        ensures limit { self.old.stop ≡ None → IsAtLimit result self.new }
        ensures keeps { self.old.stop ≡ None → OnOk result (Kept self.old self.new) }
        ensures stays { IfSome self.old.stop (λ stop. AnswersKept stop result × (self.new ≡ self.old) × (files.new ≡ files.old) × (tell.new ≡ tell.old)) }
        ensures holds { Holding (F.shelf files.old) (F.shelf files.new) self.old self.new }
    {
        self.running()?;
        let meaning = match self.meaning(token) {
            Ok(meaning) => meaning,
            Err(_) => return Err(self.no_memory()),
        };
        match expandable_by(meaning) {
            Some(found) => self.expand(files, tell, token, found, 0),
            None => unreachable!(),
        }
    }

    // Takes the front.
    #[inline(always)]
    pub(super) fn front<F: Files>(&mut self, files: &mut F) -> Result<Front, Stop>
        requires running { self.old.stop ≡ None }
        requires sound { Sound self.old }
        requires owns { Owns (F.shelf files.old) self.old }
        ensures gets { Gets spec_front (ok_at (front_at self.new.names) result) self.old self.new (files_at (F.shelf files.old) (F.faults files.old)) (files_at (F.shelf files.new) (F.faults files.new)) }
        ensures lower { IfOk result (λ f. Shrinks (front_count f) (F.shelf files.old) self.old (F.shelf files.new) self.new) }
        ensures begun { OnOk result (self.new.begun ≡ self.old.begun) }
        ensures within { IfOk result (FrontWithin (length self.new.names)) }
        ensures ends { IfOk result (λ f. EndsFront f self.new.input.sources) }
    {
        match self.take_front(files)? {
            None => Ok(Front::Nothing),
            Some(read) => self.judge(read),
        }
    }

    // What a token that was taken is.
    #[inline(always)]
    fn judge(&mut self, read: Read) -> Result<Front, Stop>
        requires running { self.old.stop ≡ None }
        requires sound { Sound self.old }
        requires token { TokenWithin (length self.old.names) read.token }
        ensures judges { Local (front_taken (Some (read_at self.old.names read))) (ok_at (front_at self.old.names) result) self.old self.new }
        ensures kept { self.new.stop ≡ stop_after result }
        ensures same { OnOk result (self.new ≡ self.old) }
        ensures progress { Progress self.old self.new }
        ensures limit { IsAtLimit result self.new }
        ensures files { SameFiles self.old self.new }
        ensures count { IfOk result (λ f. front_count f ≡ 1) }
        ensures ends { IfOk result (λ f. EndsFront f self.new.input.sources) }
        ensures within { IfOk result (FrontWithin (length self.old.names)) }
    {
        if read.frozen {
            return Ok(Front::Plain(read));
        }
        if let Token::Char(_, _) = read.token {
            return Ok(Front::Plain(read));
        }
        let meaning = match self.meaning(read.token) {
            Ok(meaning) => meaning,
            Err(_) => return Err(self.no_memory()),
        };
        if is_undefined(&meaning) {
            return Err(self.undefined(read.token));
        }
        match expandable_by(meaning) {
            None => Ok(Front::Plain(read)),
            Some(found) => Ok(Front::Expands(read.token, found)),
        }
    }

    // The next token that isn't expanded.
    #[cycle(expanding)]
    #[inline(always)]
    pub(super) fn fetch_on<F: Files, T: Teller>(
        &mut self,
        files: &mut F,
        tell: &mut T,
        deep: usize,
    ) -> Result<Option<Read>, Stop>
        requires running { self.old.stop ≡ None }
        requires sound { Sound self.old }
        requires owns { Owns (F.shelf files.old) self.old }
        ensures does { Does (hears T.wanting T.heard) (hears_part T.wanting T.part)
            (λ n. (level n).fetch) (ok_at (option_map (read_at self.new.names)) result) self.old self.new (outside (F.shelf files.old) (F.faults files.old) (T.faults tell.old) (T.loan tell.old)) (outside (F.shelf files.new) (F.faults files.new) (T.faults tell.new) (T.loan tell.new)) tell.old tell.new }
        ensures lower { IfOk result (λ o. Shrinks (length (option_to_list o)) (F.shelf files.old) self.old (F.shelf files.new) self.new) }
        ensures within { IfOk result (OptionWithin (ReadWithin (length self.new.names))) }
    {
        'fronts: loop {
            match self.front(files)? {
                Front::Nothing => return Ok(None),
                Front::Plain(read) => return Ok(Some(read)),
                Front::Expands(token, found) => self.expand(files, tell, token, found, deep)?,
            }
        }
    }

    // An expansion of a token.
    #[cycle(expanding)]
    pub(super) fn expand<F: Files, T: Teller>(
        &mut self,
        files: &mut F,
        tell: &mut T,
        token: Token,
        found: Expandable,
        deep: usize,
    ) -> Result<(), Stop>
        requires running { self.old.stop ≡ None }
        requires sound { Sound self.old }
        requires owns { Owns (F.shelf files.old) self.old }
        requires token { TokenWithin (length self.old.names) token }
        requires found { ExpandableWithin (length self.old.names) found }
        ensures does { Does (hears T.wanting T.heard) (hears_part T.wanting T.part)
            (λ n. (level n).expand (token_at self.old.names token) (expandable_at self.old.names found)) (result) self.old self.new (outside (F.shelf files.old) (F.faults files.old) (T.faults tell.old) (T.loan tell.old)) (outside (F.shelf files.new) (F.faults files.new) (T.faults tell.new) (T.loan tell.new)) tell.old tell.new }
        ensures begins { OnOk result (Begun self.old self.new) }
    {
        self.begin()?;
        if opens_file(&found) {
            let name = self.file_name(files, tell, deep)?;
            return self.open(files, tell, token, &name);
        }
        let gift = self.given(files, tell, token, found, deep)?;
        self.end(tell, token, gift)
    }

    // Begins an expansion. Where the limit is reached and too many are open within each other, the limit counts.
    pub(super) fn begin(&mut self) -> Result<(), Stop>
        requires { self.old.stop ≡ None }
        ensures begins { Local begin result self.old self.new }
        ensures kept { self.new.stop ≡ stop_after result }
        ensures is { OnOk result (self.new ≡ record self.old { begun = self.old.begun + 1; nesting = self.old.nesting + 1 }) }
        ensures within { OnOk result (self.new.begun ≤ self.new.limit) }
        ensures nested { OnOk result (self.new.nesting ≤ DEEPEST) }
        ensures progress { Progress self.old self.new }
        ensures limit { IsAtLimit result self.new }
        ensures files { SameFiles self.old self.new }
    {
        if self.nesting >= DEEPEST && !self.budget.is_spent() {
            return Err(self.bare_fault(fault_code::DEPTH));
        }
        if !self.budget.begin() {
            let limit = self.budget.begun();
            self.stop_with(Stop::Limit(limit));
            return Err(Stop::Limit(limit));
        }
        self.nesting += 1;
        Ok(())
    }

    // Ends an expansion with what it gives.
    fn end<T: Teller>(&mut self, tell: &mut T, token: Token, gift: Gift) -> Result<(), Stop>
        requires running { self.old.stop ≡ None }
        requires sound { Sound self.old }
        requires nested { 1 ≤ self.old.nesting }
        requires token { TokenWithin (length self.old.names) token }
        requires gift { GiftWithin (length self.old.names) gift }
        ensures finishes { (shelf : Shelf) → Meets (hears T.wanting T.heard) (hears_part T.wanting T.part)
            (finish (token_at self.old.names token) (gift_at self.old.names gift) (state_of shelf self.old)) result (state_of shelf self.new) tell.old tell.new }
        ensures stops { (shelf : Shelf) (faults : ℕ) → Stops result (outside shelf faults (T.faults tell.old) (T.loan tell.old)) (outside shelf faults (T.faults tell.new) (T.loan tell.new)) self.new.stop }
        ensures keeps { OnOk result (Kept self.old self.new) }
        ensures nesting { OnOk result (self.new.nesting ≡ self.old.nesting - 1) }
        ensures begun { OnOk result (self.new.begun ≡ self.old.begun) }
        ensures progress { Progress self.old self.new }
        ensures limit { IsAtLimit result self.new }
        ensures files { SameFiles self.old self.new }
    {
        match gift {
            Gift::Puts(list) => self.finish(tell, token, &list),
            Gift::Fills(body, args) => self.finish_filled(tell, token, &body, args),
            Gift::Freezes(kept) => self.finish_frozen(tell, token, kept),
        }
    }

    // Ends an expansion, whose tokens are put before what is to be read, and tells of it.
    fn finish<T: Teller>(&mut self, tell: &mut T, token: Token, list: &Tokens) -> Result<(), Stop>
        requires running { self.old.stop ≡ None }
        requires nested { 1 ≤ self.old.nesting }
        requires token { TokenWithin (length self.old.names) token }
        requires list { TokensWithin (length self.old.names) list.now }
        ensures finishes { (shelf : Shelf) → Meets (hears T.wanting T.heard) (hears_part T.wanting T.part)
            (finish (token_at self.old.names token) (Puts (tokens_at self.old.names list.now)) (state_of shelf self.old)) result (state_of shelf self.new) tell.old tell.new }
        ensures stops { (shelf : Shelf) (faults : ℕ) → Stops result (outside shelf faults (T.faults tell.old) (T.loan tell.old)) (outside shelf faults (T.faults tell.new) (T.loan tell.new)) self.new.stop }
        ensures kept { self.new.stop ≡ stop_after result }
        ensures is { OnOk result (self.new ≡ record self.old { input = record self.old.input { sources = map Plain list.now ++ self.old.input.sources }; nesting = self.old.nesting - 1 }) }
        ensures progress { Progress self.old self.new }
        ensures limit { IsAtLimit result self.new }
        ensures files { SameFiles self.old self.new }
    {
        self.finish_with(tell, token, list, list)
    }

    // Ends an expansion: the first tokens are put before what is to be read, and the others are told.
    pub(super) fn finish_with<T: Teller>(
        &mut self,
        tell: &mut T,
        token: Token,
        back: &Tokens,
        told: &Tokens,
    ) -> Result<(), Stop>
        requires running { self.old.stop ≡ None }
        requires nested { 1 ≤ self.old.nesting }
        requires token { TokenWithin (length self.old.names) token }
        requires back { TokensWithin (length self.old.names) back.now }
        requires told { TokensWithin (length self.old.names) told.now }
        ensures finishes { (shelf : Shelf) → Meets (hears T.wanting T.heard) (hears_part T.wanting T.part)
            (finish_with (map Tok (tokens_at self.old.names back.now)) (tokens_at self.old.names told.now) [] (token_at self.old.names token) (state_of shelf self.old)) result (state_of shelf self.new) tell.old tell.new }
        ensures stops { (shelf : Shelf) (faults : ℕ) → Stops result (outside shelf faults (T.faults tell.old) (T.loan tell.old)) (outside shelf faults (T.faults tell.new) (T.loan tell.new)) self.new.stop }
        ensures kept { self.new.stop ≡ stop_after result }
        ensures is { OnOk result (self.new ≡ record self.old { input = record self.old.input { sources = map Plain back.now ++ self.old.input.sources }; nesting = self.old.nesting - 1 }) }
        ensures progress { Progress self.old self.new }
        ensures limit { IsAtLimit result self.new }
        ensures files { SameFiles self.old self.new }
    {
        match self.input.push_tokens(back) {
            Ok(()) => {
                self.nesting -= 1;
                let no_file = Bytes::new(self.alloc);
                self.tell_of(tell, token, told, &no_file)
            }
            Err(_) => Err(self.no_memory()),
        }
    }

    // Ends the call of a macro: its body, with the arguments in their places, is put before what is to be read. It shares their
    // tokens, and is written out only for who wants to be told.
    fn finish_filled<T: Teller>(
        &mut self,
        tell: &mut T,
        token: Token,
        body: &Tokens,
        args: Vec<Tokens>,
    ) -> Result<(), Stop>
        requires running { self.old.stop ≡ None }
        requires nested { 1 ≤ self.old.nesting }
        requires token { TokenWithin (length self.old.names) token }
        requires filled { TokensWithin (length self.old.names) (put_code args.items body.now) }
        ensures finishes { (shelf : Shelf) → Meets (hears T.wanting T.heard) (hears_part T.wanting T.part)
            (finish (token_at self.old.names token) (Puts (tokens_at self.old.names (put_code args.items body.now))) (state_of shelf self.old)) result (state_of shelf self.new) tell.old tell.new }
        ensures stops { (shelf : Shelf) (faults : ℕ) → Stops result (outside shelf faults (T.faults tell.old) (T.loan tell.old)) (outside shelf faults (T.faults tell.new) (T.loan tell.new)) self.new.stop }
        ensures kept { self.new.stop ≡ stop_after result }
        ensures is { OnOk result (self.new ≡ record self.old { input = record self.old.input { sources = map Plain (put_code args.items body.now) ++ self.old.input.sources }; nesting = self.old.nesting - 1 }) }
        ensures progress { Progress self.old self.new }
        ensures limit { IsAtLimit result self.new }
        ensures files { SameFiles self.old self.new }
    {
        if tell.wants() {
            let list = match fill(self.alloc, body.as_slice(), args.as_slice()) {
                Ok(list) => list,
                Err(_) => return Err(self.no_memory()),
            };
            return self.finish(tell, token, &list);
        }
        match self.input.push_body(body, args) {
            Ok(()) => {
                self.nesting -= 1;
                Ok(())
            }
            Err(_) => Err(self.no_memory()),
        }
    }

    // Ends an expansion, which puts a token that is kept from being expanded before what is to be read, and tells of it.
    fn finish_frozen<T: Teller>(
        &mut self,
        tell: &mut T,
        token: Token,
        kept: Token,
    ) -> Result<(), Stop>
        requires running { self.old.stop ≡ None }
        requires nested { 1 ≤ self.old.nesting }
        requires token { TokenWithin (length self.old.names) token }
        requires kept { TokenWithin (length self.old.names) kept }
        ensures finishes { (shelf : Shelf) → Meets (hears T.wanting T.heard) (hears_part T.wanting T.part)
            (finish (token_at self.old.names token) (Freezes (token_at self.old.names kept)) (state_of shelf self.old)) result (state_of shelf self.new) tell.old tell.new }
        ensures stops { (shelf : Shelf) (faults : ℕ) → Stops result (outside shelf faults (T.faults tell.old) (T.loan tell.old)) (outside shelf faults (T.faults tell.new) (T.loan tell.new)) self.new.stop }
        ensures kept { self.new.stop ≡ stop_after result }
        ensures is { OnOk result (self.new ≡ record self.old { input = record self.old.input { sources = Marked kept ∷ self.old.input.sources }; nesting = self.old.nesting - 1 }) }
        ensures progress { Progress self.old self.new }
        ensures limit { IsAtLimit result self.new }
        ensures files { SameFiles self.old self.new }
    {
        let list = match Tokens::from_slice(self.alloc, &[kept]) {
            Ok(list) => list,
            Err(_) => return Err(self.no_memory()),
        };
        match self.input.back(kept, true) {
            Ok(()) => {
                self.nesting -= 1;
                let no_file = Bytes::new(self.alloc);
                self.tell_of(tell, token, &list, &no_file)
            }
            Err(_) => Err(self.no_memory()),
        }
    }

    // Tells of an expansion, where that is wanted.
    pub(super) fn tell_of<T: Teller>(
        &mut self,
        tell: &mut T,
        token: Token,
        list: &Tokens,
        file: &Bytes,
    ) -> Result<(), Stop>
        requires running { self.old.stop ≡ None }
        requires token { TokenWithin (length self.old.names) token }
        requires list { TokensWithin (length self.old.names) list.now }
        ensures told { (shelf : Shelf) → Meets (hears T.wanting T.heard) (hears_part T.wanting T.part)
            (spec_tell (record_of (token_at self.old.names token) (tokens_at self.old.names list.now) file.now) (state_of shelf self.old)) result (state_of shelf self.new) tell.old tell.new }
        ensures stops { (shelf : Shelf) (faults : ℕ) → Stops result (outside shelf faults (T.faults tell.old) (T.loan tell.old)) (outside shelf faults (T.faults tell.new) (T.loan tell.new)) self.new.stop }
        ensures kept { self.new.stop ≡ stop_after result }
        ensures same { OnOk result (self.new ≡ self.old) }
        ensures progress { Progress self.old self.new }
        ensures limit { IsAtLimit result self.new }
        ensures files { SameFiles self.old self.new }
    {
        if !tell.wants() {
            return Ok(());
        }
        let news = match self.record_of(token, list, file) {
            Ok(news) => news,
            Err(_) => return Err(self.no_memory()),
        };
        match tell.tell(&news) {
            Ok(()) => Ok(()),
            Err(Trouble::Failed) => {
                self.stop_with(Stop::TellFailed);
                Err(Stop::TellFailed)
            }
            Err(Trouble::NoMemory) => Err(self.no_memory()),
        }
    }

    // The record of an expansion.
    fn record_of(&self, token: Token, list: &Tokens, file: &Bytes) -> Result<Record, AllocError>
        requires token { TokenWithin (length self.now.names) token }
        requires list { TokensWithin (length self.now.names) list.now }
        ensures { IfOk result (λ news. news ≡ record_of (token_at self.now.names token) (tokens_at self.now.names list.now) file.now) }
    {
        let mut spelled = Bytes::new(self.alloc);
        spell(token, ESCAPE, &self.names, &mut spelled)?;
        let mut shown = Bytes::new(self.alloc);
        show(list, &self.names, &mut shown)?;
        Ok(Record {
            token: spelled,
            put: shown,
            file: file.clone()?,
        })
    }

    // What an expansion gives.
    #[cycle(expanding)]
    fn given<F: Files, T: Teller>(
        &mut self,
        files: &mut F,
        tell: &mut T,
        token: Token,
        found: Expandable,
        deep: usize,
    ) -> Result<Gift, Stop>
        requires running { self.old.stop ≡ None }
        requires sound { Sound self.old }
        requires owns { Owns (F.shelf files.old) self.old }
        requires token { TokenWithin (length self.old.names) token }
        requires found { ExpandableWithin (length self.old.names) found }
        requires puts { PutsTokens found }
        ensures does { Does (hears T.wanting T.heard) (hears_part T.wanting T.part)
            (λ n. spec_given (level n) (token_at self.old.names token) (expandable_at self.old.names found)) (ok_at (gift_at self.new.names) result) self.old self.new (outside (F.shelf files.old) (F.faults files.old) (T.faults tell.old) (T.loan tell.old)) (outside (F.shelf files.new) (F.faults files.new) (T.faults tell.new) (T.loan tell.new)) tell.old tell.new }
        ensures lower { OnOk result (Shrinks 0 (F.shelf files.old) self.old (F.shelf files.new) self.new) }
        ensures within { IfOk result (GiftWithin (length self.new.names)) }
    {
        match found {
            Expandable::Call(found) => self.called(files, found),
            Expandable::Number => {
                let list = self.decimal(files, tell, deep)?;
                Ok(Gift::Puts(list))
            }
            Expandable::RomanNumeral => {
                let list = self.roman(files, tell, deep)?;
                Ok(Gift::Puts(list))
            }
            Expandable::The => {
                let list = self.the(files, tell, deep)?;
                Ok(Gift::Puts(list))
            }
            Expandable::ExpandAfter => self.expand_after(files, tell, deep),
            Expandable::NoExpand => self.no_expand(files),
            Expandable::CsName => self.cs_name(files, tell, deep),
            Expandable::String => {
                let list = self.string(files)?;
                Ok(Gift::Puts(list))
            }
            Expandable::JobName => {
                let list = self.job()?;
                Ok(Gift::Puts(list))
            }
            Expandable::Input => unreachable!(),
            Expandable::EndInput => Ok(self.end_input()),
            Expandable::Conditional(test) => self.conditional(files, tell, test, deep),
            Expandable::PartEnd(word) => self.part_end(files, token, word),
        }
    }

    // What `\number` gives: the digits of a number.
    #[cycle(expanding)]
    fn decimal<F: Files, T: Teller>(
        &mut self,
        files: &mut F,
        tell: &mut T,
        deep: usize,
    ) -> Result<Tokens, Stop>
        requires running { self.old.stop ≡ None }
        requires sound { Sound self.old }
        requires owns { Owns (F.shelf files.old) self.old }
        ensures does { Does (hears T.wanting T.heard) (hears_part T.wanting T.part)
            (λ n. spec_decimal (level n)) (ok_at (tokens_at self.new.names) result) self.old self.new (outside (F.shelf files.old) (F.faults files.old) (T.faults tell.old) (T.loan tell.old)) (outside (F.shelf files.new) (F.faults files.new) (T.faults tell.new) (T.loan tell.new)) tell.old tell.new }
        ensures lower { OnOk result (Shrinks 0 (F.shelf files.old) self.old (F.shelf files.new) self.new) }
        ensures within { IfOk result (TokensWithin (length self.new.names)) }
    {
        let value = self.int(files, tell, deep)?;
        self.number(value)
    }

    // What `\romannumeral` gives: a number in Roman numerals.
    #[cycle(expanding)]
    fn roman<F: Files, T: Teller>(
        &mut self,
        files: &mut F,
        tell: &mut T,
        deep: usize,
    ) -> Result<Tokens, Stop>
        requires running { self.old.stop ≡ None }
        requires sound { Sound self.old }
        requires owns { Owns (F.shelf files.old) self.old }
        ensures does { Does (hears T.wanting T.heard) (hears_part T.wanting T.part)
            (λ n. spec_roman (level n)) (ok_at (tokens_at self.new.names) result) self.old self.new (outside (F.shelf files.old) (F.faults files.old) (T.faults tell.old) (T.loan tell.old)) (outside (F.shelf files.new) (F.faults files.new) (T.faults tell.new) (T.loan tell.new)) tell.old tell.new }
        ensures lower { OnOk result (Shrinks 0 (F.shelf files.old) self.old (F.shelf files.new) self.new) }
        ensures within { IfOk result (TokensWithin (length self.new.names)) }
    {
        let value = self.int(files, tell, deep)?;
        self.roman_numeral(value)
    }

    // What `\the` gives.
    #[cycle(expanding)]
    fn the<F: Files, T: Teller>(
        &mut self,
        files: &mut F,
        tell: &mut T,
        deep: usize,
    ) -> Result<Tokens, Stop>
        requires running { self.old.stop ≡ None }
        requires sound { Sound self.old }
        requires owns { Owns (F.shelf files.old) self.old }
        ensures does { Does (hears T.wanting T.heard) (hears_part T.wanting T.part)
            (λ n. spec_the (level n)) (ok_at (tokens_at self.new.names) result) self.old self.new (outside (F.shelf files.old) (F.faults files.old) (T.faults tell.old) (T.loan tell.old)) (outside (F.shelf files.new) (F.faults files.new) (T.faults tell.new) (T.loan tell.new)) tell.old tell.new }
        ensures lower { OnOk result (Shrinks 0 (F.shelf files.old) self.old (F.shelf files.new) self.new) }
        ensures within { IfOk result (TokensWithin (length self.new.names)) }
    {
        let internal = self.next_internal(files, tell, deep)?;
        self.shown(internal)
    }

    // The quantity or the list of tokens that begins with the next token.
    #[cycle(expanding)]
    pub(super) fn next_internal<F: Files, T: Teller>(
        &mut self,
        files: &mut F,
        tell: &mut T,
        deep: usize,
    ) -> Result<Internal, Stop>
        requires running { self.old.stop ≡ None }
        requires sound { Sound self.old }
        requires owns { Owns (F.shelf files.old) self.old }
        ensures does { Does (hears T.wanting T.heard) (hears_part T.wanting T.part)
            (λ n. spec_next_internal (level n)) (ok_at (internal_at self.new.names) result) self.old self.new (outside (F.shelf files.old) (F.faults files.old) (T.faults tell.old) (T.loan tell.old)) (outside (F.shelf files.new) (F.faults files.new) (T.faults tell.new) (T.loan tell.new)) tell.old tell.new }
        ensures lower { OnOk result (Shrinks 0 (F.shelf files.old) self.old (F.shelf files.new) self.new) }
        ensures within { IfOk result (InternalWithin (length self.new.names)) }
    {
        let looked = match self.next_looked(files, tell, false, deep)? {
            Some(looked) => looked,
            None => return Err(self.bare_fault(fault_code::FILE_ENDED)),
        };
        let meaning = match self.means(looked.counts) {
            Ok(meaning) => meaning,
            Err(_) => return Err(self.no_memory()),
        };
        self.internal(files, tell, &meaning, deep)
    }

    // The next token, as it stands or expanded, and what it counts as.
    #[cycle(expanding)]
    #[inline(always)]
    pub(super) fn next_looked<F: Files, T: Teller>(
        &mut self,
        files: &mut F,
        tell: &mut T,
        raw: bool,
        deep: usize,
    ) -> Result<Option<Looked>, Stop>
        requires running { self.old.stop ≡ None }
        requires sound { Sound self.old }
        requires owns { Owns (F.shelf files.old) self.old }
        ensures does { Does (hears T.wanting T.heard) (hears_part T.wanting T.part)
            (λ n. next_looked (level n) raw) (ok_at (option_map (looked_at_by self.new.names)) result) self.old self.new (outside (F.shelf files.old) (F.faults files.old) (T.faults tell.old) (T.loan tell.old)) (outside (F.shelf files.new) (F.faults files.new) (T.faults tell.new) (T.loan tell.new)) tell.old tell.new }
        ensures lower { IfOk result (λ o. Shrinks (length (option_to_list o)) (F.shelf files.old) self.old (F.shelf files.new) self.new) }
        ensures within { IfOk result (OptionWithin (LookedWithin (length self.new.names))) }
    {
        if raw {
            return match self.take_front(files)? {
                Some(read) => Ok(Some(as_itself(read))),
                None => Ok(None),
            };
        }
        match self.fetch_on(files, tell, deep)? {
            Some(read) => self.counted(read),
            None => Ok(None),
        }
    }

    // What a token that was fetched counts as.
    #[inline(always)]
    fn counted(&mut self, read: Read) -> Result<Option<Looked>, Stop>
        requires running { self.old.stop ≡ None }
        requires sound { Sound self.old }
        requires token { TokenWithin (length self.old.names) read.token }
        ensures counts { Local (as_it_counts (Some (read_at self.old.names read))) (ok_at (option_map (looked_at_by self.new.names)) result) self.old self.new }
        ensures kept { self.new.stop ≡ stop_after result }
        ensures progress { Progress self.old self.new }
        ensures limit { IsAtLimit result self.new }
        ensures files { SameFiles self.old self.new }
        ensures keeps { OnOk result (Kept self.old self.new) }
        ensures same { OnOk result (self.new ≡ self.old) }
        ensures one { IfOk result (λ o. length (option_to_list o) ≡ 1) }
        ensures within { IfOk result (OptionWithin (LookedWithin (length self.new.names))) }
    {
        match self.counts_as(read) {
            Ok(counts) => Ok(Some(Looked {
                token: read.token,
                counts,
            })),
            Err(_) => Err(self.no_memory()),
        }
    }

    // What a token that was taken counts as.
    #[inline(always)]
    pub(super) fn counts_as(&self, read: Read) -> Result<Token, AllocError>
        requires sound { Sound self.now }
        requires token { TokenWithin (length self.now.names) read.token }
        ensures is { IfOk result (λ t. token_at self.now.names t ≡ spec_counts_as (world_in self.now) (read_at self.now.names read)) }
        ensures within { IfOk result (TokenWithin (length self.now.names)) }
    {
        if !read.frozen {
            return Ok(read.token);
        }
        let meaning = self.meaning(read.token)?;
        Ok(frozen_as(read.token, meaning))
    }

    // What a scanner reads: the shortest list of tokens that decides. Those that aren't part of it go back.
    #[cycle(expanding)]
    pub(super) fn scan<F: Files, T: Teller>(
        &mut self,
        files: &mut F,
        tell: &mut T,
        start: Machine<'_>,
        deep: usize,
    ) -> Result<Value, Stop>
        requires running { self.old.stop ≡ None }
        requires sound { Sound self.old }
        requires owns { Owns (F.shelf files.old) self.old }
        ensures does { Does (hears T.wanting T.heard) (hears_part T.wanting T.part)
            (λ n. (level n).scan (machine_rest start.entry) []) (result) self.old self.new (outside (F.shelf files.old) (F.faults files.old) (T.faults tell.old) (T.loan tell.old)) (outside (F.shelf files.new) (F.faults files.new) (T.faults tell.new) (T.loan tell.new)) tell.old tell.new }
        ensures gives { IfOk result (MayGive (machine_rest start.entry)) }
        ensures lower { OnOk result (Shrinks 0 (F.shelf files.old) self.old (F.shelf files.new) self.new) }
    {
        let mut machine = start;
        let mut scanned = machine.first();
        let mut seen = Vec::new(self.alloc);
        'rounds: loop {
            let begun = self.begun();
            'tokens: loop {
                let Some(raw) = scanned.raw() else {
                    return self.decided_on(scanned, &seen);
                };
                let looked = match self.next_looked(files, tell, raw, deep)? {
                    Some(looked) => looked,
                    None => return self.decided_on(machine.end(), &seen),
                };
                let (look, next) = self.look_by(files, tell, &mut machine, looked.counts, deep)?;
                scanned = next;
                match seen.push(Seen {
                    token: looked.token,
                    look,
                }) {
                    Ok(()) => {}
                    Err(_) => return Err(self.no_memory()),
                }
                if self.begun() != begun {
                    break;
                }
            }
        }
    }

    // The look of a token, with the quantity that it begins where one is asked for, and what a scanner makes of it.
    #[cycle(expanding)]
    fn look_by<F: Files, T: Teller>(
        &mut self,
        files: &mut F,
        tell: &mut T,
        machine: &mut Machine<'_>,
        token: Token,
        deep: usize,
    ) -> Result<(Look, Scanned), Stop>
        requires running { self.old.stop ≡ None }
        requires sound { Sound self.old }
        requires owns { Owns (F.shelf files.old) self.old }
        requires token { TokenWithin (length self.old.names) token }
        ensures does { Does (hears T.wanting T.heard) (hears_part T.wanting T.part)
            (λ n. look_in (level n) (machine_rest machine.old) [] (token_at self.old.names token)) (ok_at (λ p. p.0) result) self.old self.new (outside (F.shelf files.old) (F.faults files.old) (T.faults tell.old) (T.loan tell.old)) (outside (F.shelf files.new) (F.faults files.new) (T.faults tell.new) (T.loan tell.new)) tell.old tell.new }
        ensures turned { IfOk result (λ p. Turned machine.old p.0 p.1 machine.new) }
        ensures lower { OnOk result (Shrinks 0 (F.shelf files.old) self.old (F.shelf files.new) self.new) }
    {
        let meaning = match self.means(token) {
            Ok(meaning) => meaning,
            Err(_) => return Err(self.no_memory()),
        };
        let look = looked_at(&self.names, token, &meaning, Held::Nothing);
        match machine.turn(look) {
            Scanned::Asked => {}
            scanned => return Ok((look, scanned)),
        }
        if deep >= DEEPEST_QUANTITY {
            return Err(self.no_memory());
        }
        let internal = self.internal(files, tell, &meaning, deep + 1)?;
        let look = looked_at(&self.names, token, &meaning, held_of(&internal));
        let scanned = machine.turn(look);
        Ok((look, scanned))
    }

    // What a token of this meaning begins: an internal quantity, or a list of tokens.
    #[cycle(expanding)]
    fn internal<F: Files, T: Teller>(
        &mut self,
        files: &mut F,
        tell: &mut T,
        meaning: &Meaning,
        deep: usize,
    ) -> Result<Internal, Stop>
        requires running { self.old.stop ≡ None }
        requires sound { Sound self.old }
        requires owns { Owns (F.shelf files.old) self.old }
        requires meaning { MeaningWithin (length self.old.names) meaning.now }
        ensures does { Does (hears T.wanting T.heard) (hears_part T.wanting T.part)
            (λ n. spec_internal (level n) (meaning_at self.old.names meaning.now)) (ok_at (internal_at self.new.names) result) self.old self.new (outside (F.shelf files.old) (F.faults files.old) (T.faults tell.old) (T.loan tell.old)) (outside (F.shelf files.new) (F.faults files.new) (T.faults tell.new) (T.loan tell.new)) tell.old tell.new }
        ensures lower { OnOk result (Shrinks 0 (F.shelf files.old) self.old (F.shelf files.new) self.new) }
        ensures within { IfOk result (InternalWithin (length self.new.names)) }
    {
        match meaning {
            Meaning::Number(code) => Ok(Internal::Number(*code as i32)),
            Meaning::Quantity(key) => self.value_of(*key),
            Meaning::Builtin(place) => self.internal_at(files, tell, *place, deep),
            _ => Err(self.bare_fault(fault_code::MISSING_NUMBER)),
        }
    }

    // What the builtin of a place begins, with the number behind it.
    #[cycle(expanding)]
    fn internal_at<F: Files, T: Teller>(
        &mut self,
        files: &mut F,
        tell: &mut T,
        place: u16,
        deep: usize,
    ) -> Result<Internal, Stop>
        requires running { self.old.stop ≡ None }
        requires sound { Sound self.old }
        requires owns { Owns (F.shelf files.old) self.old }
        ensures does { Does (hears T.wanting T.heard) (hears_part T.wanting T.part)
            (λ n. internal_of (level n) (spec_variable_at place)) (ok_at (internal_at self.new.names) result) self.old self.new (outside (F.shelf files.old) (F.faults files.old) (T.faults tell.old) (T.loan tell.old)) (outside (F.shelf files.new) (F.faults files.new) (T.faults tell.new) (T.loan tell.new)) tell.old tell.new }
        ensures lower { OnOk result (Shrinks 0 (F.shelf files.old) self.old (F.shelf files.new) self.new) }
        ensures within { IfOk result (InternalWithin (length self.new.names)) }
    {
        let Some(variable) = variable_at(place) else {
            return Err(self.bare_fault(fault_code::MISSING_NUMBER));
        };
        let number = self.index(files, tell, index_of(variable), deep)?;
        self.value_of(key_of(variable, number))
    }

    // The number that comes behind the builtin of a variable.
    #[cycle(expanding)]
    pub(super) fn index<F: Files, T: Teller>(
        &mut self,
        files: &mut F,
        tell: &mut T,
        index: Index,
        deep: usize,
    ) -> Result<u32, Stop>
        requires running { self.old.stop ≡ None }
        requires sound { Sound self.old }
        requires owns { Owns (F.shelf files.old) self.old }
        ensures does { Does (hears T.wanting T.heard) (hears_part T.wanting T.part)
            (λ n. spec_read_index index n) (result) self.old self.new (outside (F.shelf files.old) (F.faults files.old) (T.faults tell.old) (T.loan tell.old)) (outside (F.shelf files.new) (F.faults files.new) (T.faults tell.new) (T.loan tell.new)) tell.old tell.new }
        ensures lower { OnOk result (Shrinks 0 (F.shelf files.old) self.old (F.shelf files.new) self.new) }
        ensures fits { IfOk result (HasNumber index) }
    {
        match index {
            Index::Alone => Ok(0),
            Index::Character => {
                let number = self.int(files, tell, deep)?;
                self.character(number)
            }
            Index::Register => {
                let number = self.int(files, tell, deep)?;
                self.register(number)
            }
        }
    }

    // A number.
    #[cycle(expanding)]
    pub(super) fn int<F: Files, T: Teller>(
        &mut self,
        files: &mut F,
        tell: &mut T,
        deep: usize,
    ) -> Result<i32, Stop>
        requires running { self.old.stop ≡ None }
        requires sound { Sound self.old }
        requires owns { Owns (F.shelf files.old) self.old }
        ensures does { Does (hears T.wanting T.heard) (hears_part T.wanting T.part)
            (spec_read_int) (result) self.old self.new (outside (F.shelf files.old) (F.faults files.old) (T.faults tell.old) (T.loan tell.old)) (outside (F.shelf files.new) (F.faults files.new) (T.faults tell.new) (T.loan tell.new)) tell.old tell.new }
        ensures gives { IfOk result (MayGive int_text) }
        ensures lower { OnOk result (Shrinks 0 (F.shelf files.old) self.old (F.shelf files.new) self.new) }
    {
        match self.scan(files, tell, Machine::Int(IntScan::new()), deep)? {
            Value::Int(value) => Ok(value),
            _ => unreachable!(),
        }
    }

    // A dimension.
    #[cycle(expanding)]
    pub(super) fn dimension<F: Files, T: Teller>(
        &mut self,
        files: &mut F,
        tell: &mut T,
        deep: usize,
    ) -> Result<Scaled, Stop>
        requires running { self.old.stop ≡ None }
        requires sound { Sound self.old }
        requires owns { Owns (F.shelf files.old) self.old }
        ensures does { Does (hears T.wanting T.heard) (hears_part T.wanting T.part)
            (spec_read_dimen) (result) self.old self.new (outside (F.shelf files.old) (F.faults files.old) (T.faults tell.old) (T.loan tell.old)) (outside (F.shelf files.new) (F.faults files.new) (T.faults tell.new) (T.loan tell.new)) tell.old tell.new }
        ensures gives { IfOk result (MayGive dimension_text) }
        ensures lower { OnOk result (Shrinks 0 (F.shelf files.old) self.old (F.shelf files.new) self.new) }
    {
        match self.scan(files, tell, Machine::Dimen(DimenScan::new()), deep)? {
            Value::Dimen(value) => Ok(value),
            _ => unreachable!(),
        }
    }
}

// Whether an expansion opens a file.
fn opens_file(found: &Expandable) -> bool
    ensures yes { result ≡ true → found.now ≡ Expandable.Input }
    ensures no { result ≡ false → PutsTokens found.now }
{
    match found {
        Expandable::Input => true,
        _ => false,
    }
}

// Whether a token has no meaning, though it is one that may have one.
fn is_undefined(meaning: &Option<Meaning>) -> bool
    ensures { result ≡ means_nothing meaning.now }
{
    match meaning {
        Some(Meaning::Undefined) => true,
        _ => false,
    }
}

// What a token of this meaning can be expanded by, if it can be.
fn expandable_by(meaning: Option<Meaning>) -> Option<Expandable>
    ensures { result ≡ expandable_in meaning }
{
    match meaning {
        Some(Meaning::Macro(found)) => Some(Expandable::Call(found)),
        Some(Meaning::Builtin(place)) => builtin_at(place),
        _ => None,
    }
}

// What the builtin of a place expands as, if it does.
fn builtin_at(place: u16) -> Option<Expandable>
    ensures { result ≡ builtin_in place }
{
    match place {
        EXPANDAFTER => Some(Expandable::ExpandAfter),
        NOEXPAND => Some(Expandable::NoExpand),
        CSNAME => Some(Expandable::CsName),
        STRING => Some(Expandable::String),
        NUMBER => Some(Expandable::Number),
        ROMANNUMERAL => Some(Expandable::RomanNumeral),
        THE => Some(Expandable::The),
        JOBNAME => Some(Expandable::JobName),
        INPUT => Some(Expandable::Input),
        ENDINPUT => Some(Expandable::EndInput),
        ELSE => Some(Expandable::PartEnd(Word::Else)),
        OR => Some(Expandable::PartEnd(Word::Or)),
        FI => Some(Expandable::PartEnd(Word::Fi)),
        _ => test_at(place).map(Expandable::Conditional),
    }
}

// What a token that is kept from being expanded counts as, by its meaning.
pub(super) fn frozen_as(token: Token, meaning: Option<Meaning>) -> Token
    ensures { result ≡ frozen_in token meaning }
{
    if is_undefined(&meaning) {
        return FIXED;
    }
    match expandable_by(meaning) {
        None => token,
        Some(_) => FIXED,
    }
}

// A token that counts as itself.
fn as_itself(read: Read) -> Looked
    ensures { result ≡ record { token = read.token; counts = read.token } }
{
    Looked {
        token: read.token,
        counts: read.token,
    }
}
