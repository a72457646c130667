//! Files that are put before what is to be read.

ghost use Rattle.std.specs.Prelude.{◌≡◌, ◌≤◌, ◌<◌, ◌-◌, ◌+◌, ◌∷◌, ◌++◌, [], ℕ, None, Some, Ok, length, map, IfOk, OnOk, OnErr, option_map, option_to_list, string_bytes};
ghost use Rattle.std.specs.List.{list_all};
ghost use Rattle.texml_token.specs.Numbers.{Table, token_at, tokens_at, TokenWithin, TokensWithin, OptionWithin};
ghost use Rattle.texml_token.specs.declared.fault_code.TheConstants.{MISSING_FILE};
ghost use Rattle.texml_input.specs.Held.{Plain, Fence};
ghost use Rattle.texml_expand.specs.State.{give, change};
ghost use Rattle.texml_expand.specs.Include.{alone as spec_alone, argument_alone as spec_argument_alone, all_left as spec_all_left, is_char as spec_is_char, bytes_of, characters as spec_characters, peeked as spec_peeked, name_argument as spec_name_argument, plain_name as spec_plain_name, returned, begins_group as spec_begins_group, file_name as spec_file_name, opening as spec_opening, end_input as spec_end_input};
ghost use Rattle.texml_expand.specs.Expand.{level};
ghost use Rattle.texml_expand.specs.Fronts.{gift_at, GiftWithin};
ghost use Rattle.texml_expand.specs.Held.{place_of, Sound, Kept, Progress, IsAtLimit, ok_at, read_at, ReadWithin, Owns, SameFiles, Shrinks, Puts, Passes};
ghost use Rattle.texml_expand.specs.Contract.{Local, IsFaultAt, outside, files_at, stop_after};
ghost use Rattle.texml_expand.specs.Hearing.{hears, hears_part};
ghost use Rattle.texml_expand.specs.Doing.{Does, Gets, Tells};

use super::Engine;
use super::expanding::Gift;
use crate::gathering::{Gathering, text_of};
use crate::stop::Stop;
use std::alloc::{AllocError, Global};
use texml_base::{Files, Trouble};
use texml_input::{Read, open_text};
use texml_token::{Bytes, Token, Tokens, category, fault_code};
use texml_watch::Teller;

// How many files may be open.
const MOST_FILES: usize = 100;

const _: () = prove!(MOST_FILES == 100);

impl Engine {
    // The name of a file: behind spaces a brace begins an argument, and else it goes up to a space or another token that is no character.
    #[cycle(expanding)]
    pub(super) fn file_name<F: Files, T: Teller>(
        &mut self,
        files: &mut F,
        tell: &mut T,
        deep: usize,
    ) -> Result<String, Stop>
        requires running { self.old.stop ≡ None }
        requires sound { Sound self.old }
        requires owns { Owns (F.shelf files.old) self.old }
        ensures does { Does (hears T.wanting T.heard) (hears_part T.wanting T.part)
            (λ n. spec_file_name (level n)) (ok_at string_bytes result) self.old self.new (outside (F.shelf files.old) (F.faults files.old) (T.faults tell.old) (T.loan tell.old)) (outside (F.shelf files.new) (F.faults files.new) (T.faults tell.new) (T.loan tell.new)) tell.old tell.new }
        ensures lower { OnOk result (Shrinks 0 (F.shelf files.old) self.old (F.shelf files.new) self.new) }
    {
        let read = self.peek(files)?;
        if begins_group(read) {
            self.name_argument(files, tell, deep)
        } else {
            self.plain_name(files, tell, deep)
        }
    }

    // The next token behind spaces, which stays.
    fn peek<F: Files>(&mut self, files: &mut F) -> Result<Option<Read>, Stop>
        requires running { self.old.stop ≡ None }
        requires sound { Sound self.old }
        requires owns { Owns (F.shelf files.old) self.old }
        ensures gets { Gets spec_peeked (ok_at (option_map (read_at self.new.names)) result) self.old self.new (files_at (F.shelf files.old) (F.faults files.old)) (files_at (F.shelf files.new) (F.faults files.new)) }
        ensures lower { OnOk result (Shrinks 0 (F.shelf files.old) self.old (F.shelf files.new) self.new) }
    {
        let read = self.behind_spaces(files)?;
        self.put_read(read)?;
        Ok(read)
    }

    // A token that was taken goes back, and may be expanded from then on.
    fn put_read(&mut self, read: Option<Read>) -> Result<(), Stop>
        requires running { self.old.stop ≡ None }
        requires sound { Sound self.old }
        requires within { OptionWithin (ReadWithin (length self.old.names)) read }
        ensures puts_back { Local (change (returned (option_map (read_at self.old.names) read))) result self.old self.new }
        ensures kept { self.new.stop ≡ stop_after result }
        ensures progress { Progress self.old self.new }
        ensures limit { IsAtLimit result self.new }
        ensures files { SameFiles self.old self.new }
        ensures keeps { OnOk result (Kept self.old self.new) }
        ensures puts { OnOk result (Puts (length (option_to_list read)) self.old self.new) }
    {
        let Some(read) = read else {
            return Ok(());
        };
        match self.input.back(read.token, false) {
            Ok(()) => Ok(()),
            Err(_) => Err(self.no_memory()),
        }
    }

    // A name of characters, up to a space or another token.
    #[cycle(expanding)]
    fn plain_name<F: Files, T: Teller>(
        &mut self,
        files: &mut F,
        tell: &mut T,
        deep: usize,
    ) -> Result<String, Stop>
        requires running { self.old.stop ≡ None }
        requires sound { Sound self.old }
        requires owns { Owns (F.shelf files.old) self.old }
        ensures does { Does (hears T.wanting T.heard) (hears_part T.wanting T.part)
            (λ n. spec_plain_name (level n)) (ok_at string_bytes result) self.old self.new (outside (F.shelf files.old) (F.faults files.old) (T.faults tell.old) (T.loan tell.old)) (outside (F.shelf files.new) (F.faults files.new) (T.faults tell.new) (T.loan tell.new)) tell.old tell.new }
        ensures lower { OnOk result (Shrinks 0 (F.shelf files.old) self.old (F.shelf files.new) self.new) }
    {
        let list = self.gather(files, tell, Gathering::FileName, deep)?;
        self.text(list.as_slice())
    }

    // An argument, which is expanded alone, and has only characters.
    #[cycle(expanding)]
    fn name_argument<F: Files, T: Teller>(
        &mut self,
        files: &mut F,
        tell: &mut T,
        deep: usize,
    ) -> Result<String, Stop>
        requires running { self.old.stop ≡ None }
        requires sound { Sound self.old }
        requires owns { Owns (F.shelf files.old) self.old }
        ensures does { Does (hears T.wanting T.heard) (hears_part T.wanting T.part)
            (λ n. spec_name_argument (level n)) (ok_at string_bytes result) self.old self.new (outside (F.shelf files.old) (F.faults files.old) (T.faults tell.old) (T.loan tell.old)) (outside (F.shelf files.new) (F.faults files.new) (T.faults tell.new) (T.loan tell.new)) tell.old tell.new }
        ensures lower { OnOk result (Shrinks 0 (F.shelf files.old) self.old (F.shelf files.new) self.new) }
    {
        self.argument_alone(files)?;
        let list = self.all_left(files, tell, deep)?;
        self.characters(list.as_slice())
    }

    // The next argument is what is to be read, and all else is set aside.
    fn argument_alone<F: Files>(&mut self, files: &mut F) -> Result<(), Stop>
        requires running { self.old.stop ≡ None }
        requires sound { Sound self.old }
        requires owns { Owns (F.shelf files.old) self.old }
        ensures gets { Gets spec_argument_alone result self.old self.new (files_at (F.shelf files.old) (F.faults files.old)) (files_at (F.shelf files.new) (F.faults files.new)) }
        ensures lower { OnOk result (Shrinks 0 (F.shelf files.old) self.old (F.shelf files.new) self.new) }
    {
        let delimiter = Tokens::new(self.alloc);
        let list = self.argument(files, true, delimiter)?;
        self.set_apart(&list)
    }

    // These tokens are what is to be read, and all else is set aside.
    fn set_apart(&mut self, list: &Tokens) -> Result<(), Stop>
        requires running { self.old.stop ≡ None }
        requires sound { Sound self.old }
        requires list { TokensWithin (length self.old.names) list.now }
        ensures apart { Local (change (spec_alone (tokens_at self.old.names list.now))) result self.old self.new }
        ensures kept { self.new.stop ≡ stop_after result }
        ensures progress { Progress self.old self.new }
        ensures limit { IsAtLimit result self.new }
        ensures files { SameFiles self.old self.new }
        ensures keeps { OnOk result (Kept self.old self.new) }
        ensures puts { OnOk result (Puts (length list.now) self.old self.new) }
    {
        match self.fence_off(list) {
            Ok(()) => Ok(()),
            Err(_) => Err(self.no_memory()),
        }
    }

    // These tokens before a fence. Where memory is refused the fence may stand alone.
    fn fence_off(&mut self, list: &Tokens) -> Result<(), AllocError>
        ensures ok { OnOk result (self.new ≡ record self.old { input = record self.old.input { sources = map Plain list.now ++ Fence ∷ self.old.input.sources } }) }
        ensures err { OnErr result (self.new ≡ record self.old { input = self.new.input }) }
        ensures files { SameFiles self.old self.new }
    {
        self.input.fence()?;
        self.input.push_tokens(list)
    }

    // All that is left, expanded, and what was set aside is what is to be read.
    #[cycle(expanding)]
    fn all_left<F: Files, T: Teller>(
        &mut self,
        files: &mut F,
        tell: &mut T,
        deep: usize,
    ) -> Result<Tokens, Stop>
        requires running { self.old.stop ≡ None }
        requires sound { Sound self.old }
        requires owns { Owns (F.shelf files.old) self.old }
        ensures does { Does (hears T.wanting T.heard) (hears_part T.wanting T.part)
            (λ n. spec_all_left (level n)) (ok_at (tokens_at self.new.names) result) self.old self.new (outside (F.shelf files.old) (F.faults files.old) (T.faults tell.old) (T.loan tell.old)) (outside (F.shelf files.new) (F.faults files.new) (T.faults tell.new) (T.loan tell.new)) tell.old tell.new }
        ensures lower { OnOk result (Shrinks 0 (F.shelf files.old) self.old (F.shelf files.new) self.new) }
        ensures within { IfOk result (TokensWithin (length self.new.names)) }
    {
        let list = self.gather(files, tell, Gathering::All, deep)?;
        self.input.unfence();
        Ok(list)
    }

    // The text of a name, which has only characters.
    fn characters(&mut self, list: &[Token]) -> Result<String, Stop>
        requires running { self.old.stop ≡ None }
        requires sound { Sound self.old }
        requires list { TokensWithin (length self.old.names) list.now }
        ensures reads { Local (spec_characters (tokens_at self.old.names list.now)) (ok_at string_bytes result) self.old self.new }
        ensures kept { self.new.stop ≡ stop_after result }
        ensures progress { Progress self.old self.new }
        ensures limit { IsAtLimit result self.new }
        ensures files { SameFiles self.old self.new }
        ensures keeps { OnOk result (Kept self.old self.new) }
        ensures same { OnOk result (self.new ≡ self.old) }
    {
        if are_chars(list) {
            self.text(list)
        } else {
            Err(self.bare_fault(fault_code::MISSING_ENDCSNAME))
        }
    }

    // The text of characters.
    fn text(&mut self, list: &[Token]) -> Result<String, Stop>
        requires running { self.old.stop ≡ None }
        requires sound { Sound self.old }
        requires list { TokensWithin (length self.old.names) list.now }
        ensures reads { Local (give (bytes_of (tokens_at self.old.names list.now))) (ok_at string_bytes result) self.old self.new }
        ensures kept { self.new.stop ≡ stop_after result }
        ensures progress { Progress self.old self.new }
        ensures limit { IsAtLimit result self.new }
        ensures files { SameFiles self.old self.new }
        ensures keeps { OnOk result (Kept self.old self.new) }
        ensures same { OnOk result (self.new ≡ self.old) }
    {
        match string_of(self.alloc, list) {
            Ok(text) => Ok(text),
            Err(_) => Err(self.no_memory()),
        }
    }

    // Opens the file that a name means, puts its text before what is to be read, and ends the expansion, which is told.
    pub(super) fn open<F: Files, T: Teller>(
        &mut self,
        files: &mut F,
        tell: &mut T,
        token: Token,
        name: &str,
    ) -> Result<(), Stop>
        requires running { self.old.stop ≡ None }
        requires sound { Sound self.old }
        requires owns { Owns (F.shelf files.old) self.old }
        requires nested { 1 ≤ self.old.nesting }
        requires token { TokenWithin (length self.old.names) token }
        ensures tells { Tells (hears T.wanting T.heard) (hears_part T.wanting T.part)
            (spec_opening (token_at self.old.names token) name.now) result self.old self.new (outside (F.shelf files.old) (F.faults files.old) (T.faults tell.old) (T.loan tell.old)) (outside (F.shelf files.new) (F.faults files.new) (T.faults tell.new) (T.loan tell.new)) tell.old tell.new }
        ensures passes { OnOk result (Passes 1 self.old self.new) }
    {
        if self.input.files_open() >= MOST_FILES {
            return Err(self.bare_fault(fault_code::DEPTH));
        }
        let file = match open_text(self.alloc, files, name) {
            Ok(Some(file)) => file,
            Ok(None) => return Err(self.missing(name)),
            Err(Trouble::Failed) => {
                self.stop_with(Stop::ReadFailed);
                return Err(Stop::ReadFailed);
            }
            Err(Trouble::NoMemory) => return Err(self.no_memory()),
        };
        match self.input.push_file(file.id, &file.name) {
            Ok(()) => {}
            Err(_) => {
                files.close_file(file.id);
                return Err(self.no_memory());
            }
        }
        self.nesting -= 1;
        let nothing = Tokens::new(self.alloc);
        self.tell_of(tell, token, &nothing, &file.name)
    }

    // Stops with the fault of a file that there isn't, about its name, or for want of memory, and answers the stop that is kept.
    fn missing(&mut self, name: &str) -> Stop
        requires { self.old.stop ≡ None }
        ensures is { IsFaultAt MISSING_FILE name.now (place_of self.old) result }
        ensures kept { self.new ≡ record self.old { stop = Some result } }
    {
        match Bytes::from_slice(self.alloc, name.as_bytes()) {
            Ok(about) => self.fault(fault_code::MISSING_FILE, &about),
            Err(_) => self.no_memory(),
        }
    }

    // What `\endinput` gives, which is nothing: the first text ends behind its line that was loaded last.
    pub(super) fn end_input(&mut self) -> Gift
        requires sound { Sound self.old }
        ensures ends { Local spec_end_input (Ok (gift_at self.new.names result)) self.old self.new }
        ensures running { self.new.stop ≡ self.old.stop }
        ensures progress { Progress self.old self.new }
        ensures files { SameFiles self.old self.new }
        ensures keeps { Kept self.old self.new }
        ensures puts { Puts 0 self.old self.new }
        ensures within { GiftWithin (length self.new.names) result }
    {
        self.input.end_file();
        Gift::Puts(Tokens::new(self.alloc))
    }
}

// Whether a token is a character.
fn is_char(token: Token) -> bool
    ensures { (texts : Table) → result ≡ spec_is_char (token_at texts token) }
{
    match token {
        Token::Char(_, _) => true,
        _ => false,
    }
}

// Whether each token is a character.
fn are_chars(list: &[Token]) -> bool
    ensures { (texts : Table) → result ≡ list_all spec_is_char (tokens_at texts list.now) }
{
    for token in list {
        if !is_char(*token) {
            return false;
        }
    }
    true
}

// Whether a token that was taken begins a group.
fn begins_group(read: Option<Read>) -> bool
    ensures { (texts : Table) → result ≡ spec_begins_group (option_map (read_at texts) read) }
{
    match read {
        Some(read) => read.token.has_category(category::BEGIN_GROUP),
        None => false,
    }
}

// The text of characters.
fn string_of(alloc: Global, list: &[Token]) -> Result<String, AllocError>
    requires { (count : ℕ) × TokensWithin count list.now }
    ensures { IfOk result (λ text. (texts : Table) → string_bytes text ≡ bytes_of (tokens_at texts list.now)) }
{
    let line = text_of(alloc, list)?;
    let mut text = String::new(alloc);
    for code in line.as_slice() {
        match char::from_u32(*code) {
            Some(character) => text.push(character)?,
            None => unreachable!(),
        }
    }
    Ok(text)
}
