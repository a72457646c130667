//! Commands of expansion that take tokens as they stand, and names made of characters.

ghost use Rattle.std.specs.Prelude.{◌≡◌, ◌≤◌, [], ◌∷◌, ℕ, None, Some, length, if◌then◌else◌, IfOk, OnOk, OnErr};
ghost use Rattle.texml_base.specs.Rising.{add_up};
ghost use Rattle.texml_token.specs.Token.{Named};
ghost use Rattle.texml_token.specs.Numbers.{Table, token_at, tokens_at, text_at, Extends, Numbered, TokenWithin, TokensWithin};
ghost use Rattle.texml_token.specs.Spelling.{spelled as spec_spelled};
ghost use Rattle.texml_scope.specs.Values.{meaning_in};
ghost use Rattle.texml_scope.specs.Shown.{world_of};
ghost use Rattle.texml_scope.specs.Numbers.{WorldCovered};
ghost use Rattle.texml_scope.specs.declared.values.KeyOf.TheVariants.{Name as NameKey};
ghost use Rattle.texml_expand.specs.State.{give};
ghost use Rattle.texml_expand.specs.Calls.{Puts as spec_Puts};
ghost use Rattle.texml_expand.specs.Printed.{printed_tokens};
ghost use Rattle.texml_expand.specs.Expansion.{one_token as spec_one_token, escape_of, spelled_now, string as spec_string, job as spec_job, no_expand as spec_no_expand, expand_after as spec_expand_after};
ghost use Rattle.texml_expand.specs.Names.{text_of as spec_text_of, is_undefined as spec_is_undefined, with_name, name_of, cs_name as spec_cs_name};
ghost use Rattle.texml_expand.specs.Expand.{level};
ghost use Rattle.texml_expand.specs.Fronts.{gift_at, GiftWithin, lacks_meaning};
ghost use Rattle.texml_expand.specs.Held.{world_in, Sound, Kept, Progress, IsAtLimit, ok_at, Owns, SameFiles, Shrinks, Puts};
ghost use Rattle.texml_expand.specs.Contract.{Local, outside, files_at, stop_after};
ghost use Rattle.texml_expand.specs.Hearing.{hears, hears_part};
ghost use Rattle.texml_expand.specs.Doing.{Does, Gets};

use super::Engine;
use super::expanding::{Front, Gift};
use crate::gathering::{Gathering, text_of};
use crate::printed::printed_text;
use crate::stop::Stop;
use std::alloc::{AllocError, Global};
use texml_base::{Files, Steps};
use texml_scope::builtins::RELAX;
use texml_scope::{Key, Meaning, Value};
use texml_text::chars_of;
use texml_token::{Bytes, Name, Names, Token, Tokens, fault_code, spell};
use texml_watch::Teller;

impl Engine {
    // The next token as it stands; there must be one.
    pub(super) fn one_token<F: Files>(&mut self, files: &mut F) -> Result<Token, Stop>
        requires running { self.old.stop ≡ None }
        requires sound { Sound self.old }
        requires owns { Owns (F.shelf files.old) self.old }
        ensures gets { Gets spec_one_token (ok_at (token_at self.new.names) result) self.old self.new (files_at (F.shelf files.old) (F.faults files.old)) (files_at (F.shelf files.new) (F.faults files.new)) }
        ensures lower { OnOk result (Shrinks 1 (F.shelf files.old) self.old (F.shelf files.new) self.new) }
        ensures within { IfOk result (TokenWithin (length self.new.names)) }
    {
        match self.take_front(files)? {
            Some(read) => Ok(read.token),
            None => Err(self.bare_fault(fault_code::FILE_ENDED)),
        }
    }

    // What `\string` gives: the characters of the next token.
    pub(super) fn string<F: Files>(&mut self, files: &mut F) -> Result<Tokens, Stop>
        requires running { self.old.stop ≡ None }
        requires sound { Sound self.old }
        requires owns { Owns (F.shelf files.old) self.old }
        ensures gets { Gets spec_string (ok_at (tokens_at self.new.names) result) self.old self.new (files_at (F.shelf files.old) (F.faults files.old)) (files_at (F.shelf files.new) (F.faults files.new)) }
        ensures lower { OnOk result (Shrinks 0 (F.shelf files.old) self.old (F.shelf files.new) self.new) }
        ensures within { IfOk result (TokensWithin (length self.new.names)) }
    {
        let token = self.one_token(files)?;
        self.spelled(token)
    }

    // The characters of a token, as it is spelled now.
    fn spelled(&mut self, token: Token) -> Result<Tokens, Stop>
        requires running { self.old.stop ≡ None }
        requires sound { Sound self.old }
        requires token { TokenWithin (length self.old.names) token }
        ensures writes { Local (spelled_now (token_at self.old.names token)) (ok_at (tokens_at self.old.names) result) self.old self.new }
        ensures kept { self.new.stop ≡ stop_after result }
        ensures progress { Progress self.old self.new }
        ensures limit { IsAtLimit result self.new }
        ensures files { SameFiles self.old self.new }
        ensures keeps { OnOk result (Kept self.old self.new) }
        ensures same { OnOk result (self.new ≡ self.old) }
        ensures within { IfOk result (TokensWithin (length self.old.names)) }
    {
        let escape = self.escape();
        match spelled(self.alloc, token, escape, &self.names) {
            Ok(list) => Ok(list),
            Err(_) => Err(self.no_memory()),
        }
    }

    // The number of the escape character.
    fn escape(&self) -> i32
        requires { Sound self.now }
        ensures { result ≡ escape_of (world_in self.now) }
    {
        self.scope.number(&Key::EscapeChar).unwrap_or(-1)
    }

    // What `\jobname` gives.
    pub(super) fn job(&mut self) -> Result<Tokens, Stop>
        requires running { self.old.stop ≡ None }
        requires sound { Sound self.old }
        ensures writes { Local (spec_job) (ok_at (tokens_at self.old.names) result) self.old self.new }
        ensures kept { self.new.stop ≡ stop_after result }
        ensures progress { Progress self.old self.new }
        ensures limit { IsAtLimit result self.new }
        ensures files { SameFiles self.old self.new }
        ensures keeps { OnOk result (Kept self.old self.new) }
        ensures same { OnOk result (self.new ≡ self.old) }
        ensures within { IfOk result (TokensWithin (length self.old.names)) }
    {
        match self.main.job(self.alloc) {
            Ok(list) => Ok(list),
            Err(_) => Err(self.no_memory()),
        }
    }

    // What `\noexpand` gives: the next token, kept from being expanded.
    pub(super) fn no_expand<F: Files>(&mut self, files: &mut F) -> Result<Gift, Stop>
        requires running { self.old.stop ≡ None }
        requires sound { Sound self.old }
        requires owns { Owns (F.shelf files.old) self.old }
        ensures gets { Gets spec_no_expand (ok_at (gift_at self.new.names) result) self.old self.new (files_at (F.shelf files.old) (F.faults files.old)) (files_at (F.shelf files.new) (F.faults files.new)) }
        ensures lower { OnOk result (Shrinks 0 (F.shelf files.old) self.old (F.shelf files.new) self.new) }
        ensures within { IfOk result (GiftWithin (length self.new.names)) }
    {
        let token = self.one_token(files)?;
        Ok(Gift::Freezes(token))
    }

    // What `\expandafter` gives: the next token, behind which the one after it is expanded once, if it can be.
    #[cycle(expanding)]
    pub(super) fn expand_after<F: Files, T: Teller>(
        &mut self,
        files: &mut F,
        tell: &mut T,
        deep: usize,
    ) -> Result<Gift, Stop>
        requires running { self.old.stop ≡ None }
        requires sound { Sound self.old }
        requires owns { Owns (F.shelf files.old) self.old }
        ensures does { Does (hears T.wanting T.heard) (hears_part T.wanting T.part)
            (λ n. spec_expand_after (level n)) (ok_at (gift_at self.new.names) result) self.old self.new (outside (F.shelf files.old) (F.faults files.old) (T.faults tell.old) (T.loan tell.old)) (outside (F.shelf files.new) (F.faults files.new) (T.faults tell.new) (T.loan tell.new)) tell.old tell.new }
        ensures lower { OnOk result (Shrinks 0 (F.shelf files.old) self.old (F.shelf files.new) self.new) }
        ensures within { IfOk result (GiftWithin (length self.new.names)) }
    {
        let first = self.one_token(files)?;
        match self.front(files)? {
            Front::Nothing => Err(self.bare_fault(fault_code::FILE_ENDED)),
            Front::Plain(second) => self.puts(&[first, second.token]),
            Front::Expands(second, found) => {
                self.expand(files, tell, second, found, deep)?;
                self.puts(&[first])
            }
        }
    }

    // These tokens, which go back.
    fn puts(&mut self, list: &[Token]) -> Result<Gift, Stop>
        requires running { self.old.stop ≡ None }
        requires sound { Sound self.old }
        requires within { TokensWithin (length self.old.names) list.now }
        ensures puts { Local (give (spec_Puts (tokens_at self.old.names list.now))) (ok_at (gift_at self.old.names) result) self.old self.new }
        ensures kept { self.new.stop ≡ stop_after result }
        ensures progress { Progress self.old self.new }
        ensures limit { IsAtLimit result self.new }
        ensures files { SameFiles self.old self.new }
        ensures keeps { OnOk result (Kept self.old self.new) }
        ensures same { OnOk result (self.new ≡ self.old) }
        ensures within { IfOk result (GiftWithin (length self.old.names)) }
    {
        match Tokens::from_slice(self.alloc, list) {
            Ok(list) => Ok(Gift::Puts(list)),
            Err(_) => Err(self.no_memory()),
        }
    }

    // What `\csname` gives: the name that characters make, up to `\endcsname`.
    #[cycle(expanding)]
    pub(super) fn cs_name<F: Files, T: Teller>(
        &mut self,
        files: &mut F,
        tell: &mut T,
        deep: usize,
    ) -> Result<Gift, Stop>
        requires running { self.old.stop ≡ None }
        requires sound { Sound self.old }
        requires owns { Owns (F.shelf files.old) self.old }
        ensures does { Does (hears T.wanting T.heard) (hears_part T.wanting T.part)
            (λ n. spec_cs_name (level n)) (ok_at (gift_at self.new.names) result) self.old self.new (outside (F.shelf files.old) (F.faults files.old) (T.faults tell.old) (T.loan tell.old)) (outside (F.shelf files.new) (F.faults files.new) (T.faults tell.new) (T.loan tell.new)) tell.old tell.new }
        ensures lower { OnOk result (Shrinks 0 (F.shelf files.old) self.old (F.shelf files.new) self.new) }
        ensures within { IfOk result (GiftWithin (length self.new.names)) }
    {
        let list = self.gather(files, tell, Gathering::Name, deep)?;
        self.named(list.as_slice())
    }

    // The name that characters make, which means `\relax` from now on where it has no meaning.
    fn named(&mut self, list: &[Token]) -> Result<Gift, Stop>
        requires running { self.old.stop ≡ None }
        requires sound { Sound self.old }
        requires within { TokensWithin (length self.old.names) list.now }
        ensures names { Local (name_of (tokens_at self.old.names list.now)) (ok_at (gift_at self.new.names) result) self.old self.new }
        ensures kept { self.new.stop ≡ stop_after result }
        ensures progress { Progress self.old self.new }
        ensures limit { IsAtLimit result self.new }
        ensures files { SameFiles self.old self.new }
        ensures keeps { OnOk result (Kept self.old self.new) }
        ensures puts { OnOk result (Puts 0 self.old self.new) }
        ensures within { IfOk result (GiftWithin (length self.new.names)) }
    {
        match self.name_of(list) {
            Ok(list) => Ok(Gift::Puts(list)),
            Err(_) => Err(self.no_memory()),
        }
    }

    // That name alone.
    fn name_of(&mut self, list: &[Token]) -> Result<Tokens, AllocError>
        requires sound { Sound self.old }
        requires within { TokensWithin (length self.old.names) list.now }
        ensures same { self.new ≡ record self.old { names = self.new.names; scope = self.new.scope; writes = self.new.writes } }
        ensures grows { Extends self.old.names self.new.names }
        ensures writes { self.old.writes ≤ self.new.writes }
        ensures numbered { OnOk result (Numbered self.new.names) }
        ensures world { OnOk result (world_in self.new ≡ with_name (spec_text_of (tokens_at self.old.names list.now)) (world_in self.old)) }
        ensures covered { OnOk result (WorldCovered (length self.new.names) (world_of self.new.scope)) }
        ensures groups { OnOk result ((world_of self.new.scope).groups ≡ (world_of self.old.scope).groups) }
        ensures is { IfOk result (λ one. tokens_at self.new.names one ≡ Named (spec_text_of (tokens_at self.old.names list.now)) ∷ []) }
        ensures within { IfOk result (TokensWithin (length self.new.names)) }
    {
        let text = text_of(self.alloc, list)?;
        let name = self.names.intern(&text)?;
        self.relax(name)?;
        Tokens::from_slice(self.alloc, &[Token::Named(name)])
    }

    // A name without a meaning means `\relax` from now on, in the innermost group.
    fn relax(&mut self, name: Name) -> Result<(), AllocError>
        requires sound { Sound self.old }
        requires given { 1 ≤ name.0 }
        requires within { name.0 ≤ length self.old.names }
        ensures same { self.new ≡ record self.old { scope = self.new.scope; writes = self.new.writes } }
        ensures writes { self.old.writes ≤ self.new.writes }
        ensures steps { OnOk result (self.new.writes ≡ (if spec_is_undefined (meaning_in ((world_in self.old).top (NameKey (text_at self.old.names name.0)))) then add_up self.old.writes 1 else self.old.writes)) }
        ensures no_step { OnErr result (self.new.writes ≡ self.old.writes) }
        ensures world { OnOk result (world_in self.new ≡ with_name (text_at self.old.names name.0) (world_in self.old)) }
        ensures covered { OnOk result (WorldCovered (length self.new.names) (world_of self.new.scope)) }
        ensures groups { OnOk result ((world_of self.new.scope).groups ≡ (world_of self.old.scope).groups) }
    {
        if !self.lacks_meaning(name)? {
            return Ok(());
        }
        let mut steps = Steps::new();
        self.scope.set(
            Key::Name(name),
            Value::Means(Meaning::Builtin(RELAX)),
            &mut steps,
        )?;
        self.wrote(&steps);
        Ok(())
    }

    // Whether a name has no meaning.
    fn lacks_meaning(&self, name: Name) -> Result<bool, AllocError>
        requires sound { Sound self.now }
        requires given { 1 ≤ name.0 }
        requires within { name.0 ≤ length self.now.names }
        ensures { IfOk result (λ lacks. lacks ≡ spec_is_undefined (meaning_in ((world_in self.now).top (NameKey (text_at self.now.names name.0))))) }
    {
        let value = self.value(&Key::Name(name))?;
        Ok(is_undefined(&value))
    }
}

// Whether it is the value of a name without a meaning.
fn is_undefined(value: &Value) -> bool
    ensures { result ≡ lacks_meaning value.now }
{
    match value {
        Value::Means(Meaning::Undefined) => true,
        Value::Means(_) => false,
        _ => true,
    }
}

// A token as it is spelled with this escape character.
fn spelled(alloc: Global, token: Token, escape: i32, names: &Names) -> Result<Tokens, AllocError>
    requires { TokenWithin (length names.now) token }
    ensures is { IfOk result (λ list. (texts : Table) → tokens_at texts list ≡ printed_tokens (spec_spelled escape (token_at names.now token))) }
    ensures within { IfOk result (λ list. (count : ℕ) → TokensWithin count list) }
{
    let _given = names.given();
    let mut text = Bytes::new(alloc);
    spell(token, escape, names, &mut text)?;
    match str::from_utf8(text.as_slice()) {
        Ok(text) => {
            let text = chars_of(alloc, text)?;
            printed_text(alloc, &text)
        }
        Err(_) => unreachable!(),
    }
}
