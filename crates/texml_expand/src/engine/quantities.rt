//! Quantities: what commands read of them, and what the readings of expanding.rt do besides.

ghost use Rattle.std.specs.Prelude.{◌≡◌, ◌≤◌, ℕ, None, length, map, IfSome, IfOk, OnOk};
ghost use Rattle.std.specs.Fmt.{signed_decimal};
ghost use Rattle.texml_fixed.specs.Arithmetic.{IsWithin};
ghost use Rattle.texml_fixed.specs.Glue.{IsGlueWithin};
ghost use Rattle.texml_token.specs.Numbers.{Table, tokens_at, TokensWithin};
ghost use Rattle.texml_scope.specs.Numbers.{key_at, value_at, KeyWithin, ValueWithin};
ghost use Rattle.texml_expand.specs.State.{give, change};
ghost use Rattle.texml_expand.specs.Take.{put};
ghost use Rattle.texml_expand.specs.Printed.{printed_tokens, roman_text};
ghost use Rattle.texml_expand.specs.Variables.{a_character, a_register, internal_in as spec_internal_in, value_of as spec_value_of};
ghost use Rattle.texml_expand.specs.Quantities.{shown as spec_shown, decided_on as spec_decided_on, scan_fault as spec_scan_fault};
ghost use Rattle.texml_expand.specs.Expand.{read_int as spec_read_int, read_dimen as spec_read_dimen, read_glue as spec_read_glue, read_keyword as spec_read_keyword, read_index as spec_read_index, read_key as spec_read_key};
ghost use Rattle.texml_expand.specs.VariableCodes.{internal_at, InternalWithin, HasNumber, Names};
ghost use Rattle.texml_expand.specs.Machine.{scanned_as, HasValue};
ghost use Rattle.texml_expand.specs.Scanning.{all_seen_at, SeenWithin};
ghost use Rattle.std.specs.List.{All};
ghost use Rattle.texml_expand.specs.Held.{state_of, Sound, Kept, Progress, IsAtLimit, ok_at, Owns, Holding, SameFiles, Shrinks, Puts};
ghost use Rattle.texml_expand.specs.Spending.{SpendsBy};
ghost use Rattle.texml_expand.specs.Contract.{Local, AnswersKept, Stops, outside, stop_after};
ghost use Rattle.texml_expand.specs.Hearing.{hears, hears_part, FollowsTold};

use super::Engine;
use super::expanding::Seen;
use crate::internal::Internal;
use crate::machine::{Machine, Scanned, Value};
use crate::printed::{printed_dimension, printed_glue, printed_number, printed_roman};
use crate::stop::Stop;
use crate::variables::{Index, LAST_REGISTER, Variable, index_of, key_of};
use std::alloc::{AllocError, Global};
use texml_base::Files;
use texml_fixed::{Glue, Scaled};
use texml_scan::{GlueScan, KeywordScan, ScanFault};
use texml_scope::{Key, Value as KeyValue};
use texml_token::{Tokens, fault_code};
use texml_watch::Teller;

impl Engine {
    /// Reads a number, whose tokens are expanded as they are looked at: signs and spaces, and then digits, a backquote with a
    /// character, or an internal quantity. The tokens looked at that aren't part of it go back (The TeXbook, chapter 24).
    ///
    /// # Errors
    ///
    /// `Tex` with fault 6 where no number comes, with fault 7 where one passes 2147483647, with fault 11 where a register or a
    /// character in it has no such number, and with the faults of `fetch`. `Limit`, `TellFailed`, `NoMemory` and the stop that is
    /// kept as in `fetch`; `NoMemory` too where more than 1000 internal quantities would be read within each other.
    pub fn read_int<F: Files, T: Teller>(
        &mut self,
        files: &mut F,
        tell: &mut T,
    ) -> Result<i32, Stop>
        requires sound { self.old.stop ≡ None → Sound self.old }
        requires owns { Owns (F.shelf files.old) self.old }
        ensures follows { self.old.stop ≡ None → FollowsTold (hears T.wanting T.heard) (hears_part T.wanting T.part) (F.shelf files.old) (λ n. spec_read_int n (state_of (F.shelf files.old) self.old)) result (state_of (F.shelf files.new) self.new) tell.old tell.new }
        ensures spends { self.old.stop ≡ None → SpendsBy (λ n. spec_read_int n (state_of (F.shelf files.old) self.old)) result (F.shelf files.old) (F.shelf files.new) self.old self.new }
        ensures stops { self.old.stop ≡ None → Stops result (outside (F.shelf files.old) (F.faults files.old) (T.faults tell.old) (T.loan tell.old)) (outside (F.shelf files.new) (F.faults files.new) (T.faults tell.new) (T.loan tell.new)) self.new.stop }
        ensures lower { self.old.stop ≡ None → OnOk result (Shrinks 0 (F.shelf files.old) self.old (F.shelf files.new) self.new) }
        ensures progress { Progress self.old self.new }
        ensures limit { self.old.stop ≡ None → IsAtLimit result self.new }
        ensures keeps { self.old.stop ≡ None → OnOk result (Kept self.old self.new) }
        ensures within { self.old.stop ≡ None → IfOk result IsWithin }
        ensures stays { IfSome self.old.stop (λ stop. AnswersKept stop result × (self.new ≡ self.old) × (files.new ≡ files.old) × (tell.new ≡ tell.old)) }
        ensures holds { Holding (F.shelf files.old) (F.shelf files.new) self.old self.new }
    {
        self.running()?;
        self.int(files, tell, 0)
    }

    /// Reads a dimension, as `read_int` reads a number: signs, and then an internal dimension, or digits with a unit (The
    /// TeXbook, chapter 24).
    ///
    /// # Errors
    ///
    /// Those of `read_int`; `Tex` with fault 8 where it is 16384pt or more, and with fault 9 where no unit comes.
    pub fn read_dimen<F: Files, T: Teller>(
        &mut self,
        files: &mut F,
        tell: &mut T,
    ) -> Result<Scaled, Stop>
        requires sound { self.old.stop ≡ None → Sound self.old }
        requires owns { Owns (F.shelf files.old) self.old }
        ensures follows { self.old.stop ≡ None → FollowsTold (hears T.wanting T.heard) (hears_part T.wanting T.part) (F.shelf files.old) (λ n. spec_read_dimen n (state_of (F.shelf files.old) self.old)) result (state_of (F.shelf files.new) self.new) tell.old tell.new }
        ensures spends { self.old.stop ≡ None → SpendsBy (λ n. spec_read_dimen n (state_of (F.shelf files.old) self.old)) result (F.shelf files.old) (F.shelf files.new) self.old self.new }
        ensures stops { self.old.stop ≡ None → Stops result (outside (F.shelf files.old) (F.faults files.old) (T.faults tell.old) (T.loan tell.old)) (outside (F.shelf files.new) (F.faults files.new) (T.faults tell.new) (T.loan tell.new)) self.new.stop }
        ensures lower { self.old.stop ≡ None → OnOk result (Shrinks 0 (F.shelf files.old) self.old (F.shelf files.new) self.new) }
        ensures progress { Progress self.old self.new }
        ensures limit { self.old.stop ≡ None → IsAtLimit result self.new }
        ensures keeps { self.old.stop ≡ None → OnOk result (Kept self.old self.new) }
        ensures within { self.old.stop ≡ None → IfOk result (λ d. IsWithin d.0) }
        ensures stays { IfSome self.old.stop (λ stop. AnswersKept stop result × (self.new ≡ self.old) × (files.new ≡ files.old) × (tell.new ≡ tell.old)) }
        ensures holds { Holding (F.shelf files.old) (F.shelf files.new) self.old self.new }
    {
        self.running()?;
        self.dimension(files, tell, 0)
    }

    /// Reads glue, as `read_int` reads a number: signs and an internal glue, or a dimension with what it may stretch and shrink
    /// by (The TeXbook, chapter 24).
    ///
    /// # Errors
    ///
    /// Those of `read_dimen`.
    pub fn read_glue<F: Files, T: Teller>(
        &mut self,
        files: &mut F,
        tell: &mut T,
    ) -> Result<Glue, Stop>
        requires sound { self.old.stop ≡ None → Sound self.old }
        requires owns { Owns (F.shelf files.old) self.old }
        ensures follows { self.old.stop ≡ None → FollowsTold (hears T.wanting T.heard) (hears_part T.wanting T.part) (F.shelf files.old) (λ n. spec_read_glue n (state_of (F.shelf files.old) self.old)) result (state_of (F.shelf files.new) self.new) tell.old tell.new }
        ensures spends { self.old.stop ≡ None → SpendsBy (λ n. spec_read_glue n (state_of (F.shelf files.old) self.old)) result (F.shelf files.old) (F.shelf files.new) self.old self.new }
        ensures stops { self.old.stop ≡ None → Stops result (outside (F.shelf files.old) (F.faults files.old) (T.faults tell.old) (T.loan tell.old)) (outside (F.shelf files.new) (F.faults files.new) (T.faults tell.new) (T.loan tell.new)) self.new.stop }
        ensures lower { self.old.stop ≡ None → OnOk result (Shrinks 0 (F.shelf files.old) self.old (F.shelf files.new) self.new) }
        ensures progress { Progress self.old self.new }
        ensures limit { self.old.stop ≡ None → IsAtLimit result self.new }
        ensures keeps { self.old.stop ≡ None → OnOk result (Kept self.old self.new) }
        ensures within { self.old.stop ≡ None → IfOk result IsGlueWithin }
        ensures stays { IfSome self.old.stop (λ stop. AnswersKept stop result × (self.new ≡ self.old) × (files.new ≡ files.old) × (tell.new ≡ tell.old)) }
        ensures holds { Holding (F.shelf files.old) (F.shelf files.new) self.old self.new }
    {
        self.running()?;
        match self.scan(files, tell, Machine::Glue(GlueScan::new()), 0)? {
            Value::Glue(value) => Ok(value),
            _ => unreachable!(),
        }
    }

    /// Whether a keyword comes behind spaces, in either case and of any category, which is taken then. Else the spaces alone are.
    /// Tokens are expanded as they are looked at. `word` is 1 to 255 small letters (The TeXbook, chapter 24).
    ///
    /// # Errors
    ///
    /// Those of `fetch`.
    pub fn read_keyword<F: Files, T: Teller>(
        &mut self,
        files: &mut F,
        tell: &mut T,
        word: &[u8],
    ) -> Result<bool, Stop>
        requires sound { self.old.stop ≡ None → Sound self.old }
        requires owns { Owns (F.shelf files.old) self.old }
        requires some { 1 ≤ length word.now }
        requires short { length word.now ≤ 255 }
        ensures follows { self.old.stop ≡ None → FollowsTold (hears T.wanting T.heard) (hears_part T.wanting T.part) (F.shelf files.old) (λ n. spec_read_keyword word.now n (state_of (F.shelf files.old) self.old)) result (state_of (F.shelf files.new) self.new) tell.old tell.new }
        ensures spends { self.old.stop ≡ None → SpendsBy (λ n. spec_read_keyword word.now n (state_of (F.shelf files.old) self.old)) result (F.shelf files.old) (F.shelf files.new) self.old self.new }
        ensures stops { self.old.stop ≡ None → Stops result (outside (F.shelf files.old) (F.faults files.old) (T.faults tell.old) (T.loan tell.old)) (outside (F.shelf files.new) (F.faults files.new) (T.faults tell.new) (T.loan tell.new)) self.new.stop }
        ensures lower { self.old.stop ≡ None → OnOk result (Shrinks 0 (F.shelf files.old) self.old (F.shelf files.new) self.new) }
        ensures progress { Progress self.old self.new }
        ensures limit { self.old.stop ≡ None → IsAtLimit result self.new }
        ensures keeps { self.old.stop ≡ None → OnOk result (Kept self.old self.new) }
        ensures stays { IfSome self.old.stop (λ stop. AnswersKept stop result × (self.new ≡ self.old) × (files.new ≡ files.old) × (tell.new ≡ tell.old)) }
        ensures holds { Holding (F.shelf files.old) (F.shelf files.new) self.old self.new }
    {
        self.running()?;
        match self.scan(files, tell, Machine::Keyword(KeywordScan::new(word)), 0)? {
            Value::Found(found) => Ok(found),
            _ => unreachable!(),
        }
    }

    /// Reads the number that comes behind a builtin to name one of its variables: that of a character, or that of a register. It
    /// answers 0 where none comes there (The TeXbook, chapter 15).
    ///
    /// # Errors
    ///
    /// Those of `read_int`, and `Tex` with fault 11 where there is no such character or register.
    pub fn read_index<F: Files, T: Teller>(
        &mut self,
        files: &mut F,
        tell: &mut T,
        index: Index,
    ) -> Result<u32, Stop>
        requires sound { self.old.stop ≡ None → Sound self.old }
        requires owns { Owns (F.shelf files.old) self.old }
        ensures follows { self.old.stop ≡ None → FollowsTold (hears T.wanting T.heard) (hears_part T.wanting T.part) (F.shelf files.old) (λ n. spec_read_index index n (state_of (F.shelf files.old) self.old)) result (state_of (F.shelf files.new) self.new) tell.old tell.new }
        ensures spends { self.old.stop ≡ None → SpendsBy (λ n. spec_read_index index n (state_of (F.shelf files.old) self.old)) result (F.shelf files.old) (F.shelf files.new) self.old self.new }
        ensures stops { self.old.stop ≡ None → Stops result (outside (F.shelf files.old) (F.faults files.old) (T.faults tell.old) (T.loan tell.old)) (outside (F.shelf files.new) (F.faults files.new) (T.faults tell.new) (T.loan tell.new)) self.new.stop }
        ensures lower { self.old.stop ≡ None → OnOk result (Shrinks 0 (F.shelf files.old) self.old (F.shelf files.new) self.new) }
        ensures progress { Progress self.old self.new }
        ensures limit { self.old.stop ≡ None → IsAtLimit result self.new }
        ensures keeps { self.old.stop ≡ None → OnOk result (Kept self.old self.new) }
        ensures fits { self.old.stop ≡ None → IfOk result (HasNumber index) }
        ensures stays { IfSome self.old.stop (λ stop. AnswersKept stop result × (self.new ≡ self.old) × (files.new ≡ files.old) × (tell.new ≡ tell.old)) }
        ensures holds { Holding (F.shelf files.old) (F.shelf files.new) self.old self.new }
    {
        self.running()?;
        self.index(files, tell, index, 0)
    }

    /// Reads which of a builtin's variables is meant: behind it comes the number of a character or of a register, or none (The
    /// TeXbook, chapter 15).
    ///
    /// # Errors
    ///
    /// Those of `read_index`.
    pub fn read_variable<F: Files, T: Teller>(
        &mut self,
        files: &mut F,
        tell: &mut T,
        variable: Variable,
    ) -> Result<Key, Stop>
        requires sound { self.old.stop ≡ None → Sound self.old }
        requires owns { Owns (F.shelf files.old) self.old }
        ensures follows { self.old.stop ≡ None → FollowsTold (hears T.wanting T.heard) (hears_part T.wanting T.part) (F.shelf files.old) (λ n. spec_read_key variable n (state_of (F.shelf files.old) self.old)) (ok_at (key_at self.new.names) result) (state_of (F.shelf files.new) self.new) tell.old tell.new }
        ensures spends { self.old.stop ≡ None → SpendsBy (λ n. spec_read_key variable n (state_of (F.shelf files.old) self.old)) (ok_at (key_at self.new.names) result) (F.shelf files.old) (F.shelf files.new) self.old self.new }
        ensures stops { self.old.stop ≡ None → Stops result (outside (F.shelf files.old) (F.faults files.old) (T.faults tell.old) (T.loan tell.old)) (outside (F.shelf files.new) (F.faults files.new) (T.faults tell.new) (T.loan tell.new)) self.new.stop }
        ensures lower { self.old.stop ≡ None → OnOk result (Shrinks 0 (F.shelf files.old) self.old (F.shelf files.new) self.new) }
        ensures progress { Progress self.old self.new }
        ensures limit { self.old.stop ≡ None → IsAtLimit result self.new }
        ensures keeps { self.old.stop ≡ None → OnOk result (Kept self.old self.new) }
        ensures names { self.old.stop ≡ None → IfOk result (Names variable) }
        ensures within { self.old.stop ≡ None → IfOk result (KeyWithin (length self.new.names)) }
        ensures stays { IfSome self.old.stop (λ stop. AnswersKept stop result × (self.new ≡ self.old) × (files.new ≡ files.old) × (tell.new ≡ tell.old)) }
        ensures holds { Holding (F.shelf files.old) (F.shelf files.new) self.old self.new }
    {
        self.running()?;
        let number = self.index(files, tell, index_of(variable), 0)?;
        Ok(key_of(variable, number))
    }

    /// The value of a variable, as a quantity or a list of tokens.
    ///
    /// # Errors
    ///
    /// `NoMemory` where memory was refused, which stops the engine.
    pub fn value_of(&mut self, key: Key) -> Result<Internal, Stop>
        requires running { self.old.stop ≡ None }
        requires sound { Sound self.old }
        requires key { KeyWithin (length self.old.names) key }
        ensures values { Local (spec_value_of (key_at self.old.names key)) (ok_at (internal_at self.old.names) result) self.old self.new }
        ensures kept { self.new.stop ≡ stop_after result }
        ensures progress { Progress self.old self.new }
        ensures limit { IsAtLimit result self.new }
        ensures files { SameFiles self.old self.new }
        ensures keeps { OnOk result (Kept self.old self.new) }
        ensures same { OnOk result (self.new ≡ self.old) }
        ensures within { IfOk result (InternalWithin (length self.old.names)) }
    {
        let value = match self.scope.get(&key) {
            Ok(value) => value,
            Err(_) => return Err(self.no_memory()),
        };
        Ok(internal_in(self.alloc, key, value))
    }

    // What a scanner has decided on: tokens that aren't part of it go back.
    pub(super) fn decided_on(&mut self, scanned: Scanned, seen: &[Seen]) -> Result<Value, Stop>
        requires running { self.old.stop ≡ None }
        requires sound { Sound self.old }
        requires within { All (SeenWithin (length self.old.names)) seen.now }
        ensures decides { Local (spec_decided_on (all_seen_at self.old.names seen.now) (scanned_as scanned)) (result) self.old self.new }
        ensures puts { OnOk result (Puts (length seen.now) self.old self.new) }
        ensures value { IfOk result (λ v. HasValue v scanned) }
        ensures kept { self.new.stop ≡ stop_after result }
        ensures progress { Progress self.old self.new }
        ensures limit { IsAtLimit result self.new }
        ensures files { SameFiles self.old self.new }
        ensures keeps { OnOk result (Kept self.old self.new) }
    {
        match scanned {
            Scanned::Decided(value, back) => {
                let from = seen.len().saturating_sub(usize::from(back));
                self.put_seen(&seen[from..])?;
                Ok(value)
            }
            Scanned::Faulty(fault) => Err(self.bare_fault(scan_fault(fault))),
            _ => Err(self.bare_fault(fault_code::MISSING_NUMBER)),
        }
    }

    // Tokens that were looked at go back.
    fn put_seen(&mut self, seen: &[Seen]) -> Result<(), Stop>
        requires running { self.old.stop ≡ None }
        requires sound { Sound self.old }
        requires within { All (SeenWithin (length self.old.names)) seen.now }
        ensures does { Local (change (put (map (λ x. x.token) (all_seen_at self.old.names seen.now)))) (result) self.old self.new }
        ensures puts { OnOk result (Puts (length seen.now) self.old self.new) }
        ensures kept { self.new.stop ≡ stop_after result }
        ensures progress { Progress self.old self.new }
        ensures limit { IsAtLimit result self.new }
        ensures files { SameFiles self.old self.new }
        ensures keeps { OnOk result (Kept self.old self.new) }
    {
        match tokens_seen(self.alloc, seen) {
            Ok(list) => self.put(&list),
            Err(_) => Err(self.no_memory()),
        }
    }

    // The character of a number.
    pub(super) fn character(&mut self, number: i32) -> Result<u32, Stop>
        requires running { self.old.stop ≡ None }
        requires sound { Sound self.old }
        ensures is { Local (a_character number) (result) self.old self.new }
        ensures kept { self.new.stop ≡ stop_after result }
        ensures progress { Progress self.old self.new }
        ensures limit { IsAtLimit result self.new }
        ensures files { SameFiles self.old self.new }
        ensures keeps { OnOk result (Kept self.old self.new) }
        ensures same { OnOk result (self.new ≡ self.old) }
        ensures fits { IfOk result (HasNumber Index.Character) }
    {
        match u32::try_from(number) {
            Ok(code) if char::from_u32(code).is_some() => Ok(code),
            _ => Err(self.bare_fault(fault_code::BAD_CODE)),
        }
    }

    // The register of a number.
    pub(super) fn register(&mut self, number: i32) -> Result<u32, Stop>
        requires running { self.old.stop ≡ None }
        requires sound { Sound self.old }
        ensures is { Local (a_register number) (result) self.old self.new }
        ensures kept { self.new.stop ≡ stop_after result }
        ensures progress { Progress self.old self.new }
        ensures limit { IsAtLimit result self.new }
        ensures files { SameFiles self.old self.new }
        ensures keeps { OnOk result (Kept self.old self.new) }
        ensures same { OnOk result (self.new ≡ self.old) }
        ensures fits { IfOk result (HasNumber Index.Register) }
    {
        match u32::try_from(number) {
            Ok(place) if place <= LAST_REGISTER => Ok(place),
            _ => Err(self.bare_fault(fault_code::BAD_CODE)),
        }
    }

    // A number as `\number` writes it.
    pub(super) fn number(&mut self, value: i32) -> Result<Tokens, Stop>
        requires running { self.old.stop ≡ None }
        requires sound { Sound self.old }
        ensures writes { Local (give (printed_tokens (signed_decimal value))) (ok_at (tokens_at self.old.names) result) self.old self.new }
        ensures kept { self.new.stop ≡ stop_after result }
        ensures progress { Progress self.old self.new }
        ensures limit { IsAtLimit result self.new }
        ensures files { SameFiles self.old self.new }
        ensures keeps { OnOk result (Kept self.old self.new) }
        ensures same { OnOk result (self.new ≡ self.old) }
        ensures within { IfOk result (TokensWithin (length self.old.names)) }
    {
        match printed_number(self.alloc, value) {
            Ok(list) => Ok(list),
            Err(_) => Err(self.no_memory()),
        }
    }

    // A number as `\romannumeral` writes it.
    pub(super) fn roman_numeral(&mut self, value: i32) -> Result<Tokens, Stop>
        requires running { self.old.stop ≡ None }
        requires sound { Sound self.old }
        ensures writes { Local (give (printed_tokens (roman_text value))) (ok_at (tokens_at self.old.names) result) self.old self.new }
        ensures kept { self.new.stop ≡ stop_after result }
        ensures progress { Progress self.old self.new }
        ensures limit { IsAtLimit result self.new }
        ensures files { SameFiles self.old self.new }
        ensures keeps { OnOk result (Kept self.old self.new) }
        ensures same { OnOk result (self.new ≡ self.old) }
        ensures within { IfOk result (TokensWithin (length self.old.names)) }
    {
        match printed_roman(self.alloc, value) {
            Ok(list) => Ok(list),
            Err(_) => Err(self.no_memory()),
        }
    }

    // A quantity as `\the` writes it, or the tokens themselves.
    pub(super) fn shown(&mut self, internal: Internal) -> Result<Tokens, Stop>
        requires running { self.old.stop ≡ None }
        requires sound { Sound self.old }
        requires internal { InternalWithin (length self.old.names) internal }
        ensures writes { Local (give (spec_shown (internal_at self.old.names internal))) (ok_at (tokens_at self.old.names) result) self.old self.new }
        ensures kept { self.new.stop ≡ stop_after result }
        ensures progress { Progress self.old self.new }
        ensures limit { IsAtLimit result self.new }
        ensures files { SameFiles self.old self.new }
        ensures keeps { OnOk result (Kept self.old self.new) }
        ensures same { OnOk result (self.new ≡ self.old) }
        ensures within { IfOk result (TokensWithin (length self.old.names)) }
    {
        match shown(self.alloc, internal) {
            Ok(list) => Ok(list),
            Err(_) => Err(self.no_memory()),
        }
    }
}

// The tokens that were looked at.
fn tokens_seen(alloc: Global, seen: &[Seen]) -> Result<Tokens, AllocError>
    ensures { IfOk result (λ list. list ≡ map (λ x. x.token) seen.now) }
{
    let mut list = Tokens::new(alloc);
    for x in seen {
        list.push(x.token)?;
    }
    Ok(list)
}

// The fault of a scanner.
fn scan_fault(fault: ScanFault) -> u8
    ensures { result ≡ spec_scan_fault fault }
{
    match fault {
        ScanFault::MissingNumber => fault_code::MISSING_NUMBER,
        ScanFault::TooBig => fault_code::NUMBER_TOO_BIG,
        ScanFault::TooLarge => fault_code::DIMENSION_TOO_LARGE,
        ScanFault::IllegalUnit => fault_code::ILLEGAL_UNIT,
    }
}

// What the value of a variable is.
fn internal_in(alloc: Global, key: Key, value: KeyValue) -> Internal
    ensures is { (texts : Table) → internal_at texts result ≡ spec_internal_in (key_at texts key) (value_at texts value) }
    ensures within { (count : ℕ) → ValueWithin count value → InternalWithin count result }
{
    match value {
        KeyValue::Number(number) => match key {
            Key::Dimen(_) => Internal::Dimension(Scaled(number)),
            _ => Internal::Number(number),
        },
        KeyValue::Glue(glue) => Internal::Glue(glue),
        KeyValue::List(list) => Internal::Tokens(list),
        _ => Internal::Tokens(Tokens::new(alloc)),
    }
}

// A quantity as `\the` writes it, or the tokens themselves.
pub(super) fn shown(alloc: Global, internal: Internal) -> Result<Tokens, AllocError>
    ensures is { IfOk result (λ list. (texts : Table) → tokens_at texts list ≡ spec_shown (internal_at texts internal)) }
    ensures within { IfOk result (λ list. (count : ℕ) → InternalWithin count internal → TokensWithin count list) }
{
    match internal {
        Internal::Number(value) => printed_number(alloc, value),
        Internal::Dimension(value) => printed_dimension(alloc, value),
        Internal::Glue(value) => printed_glue(alloc, value),
        Internal::Tokens(list) => Ok(list),
    }
}
