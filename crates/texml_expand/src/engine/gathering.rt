//! Gathering tokens that are expanded as they come.

ghost use Rattle.std.specs.Prelude.{◌≡◌, ◌∷◌, ◌++◌, ◌-◌, ◌≤◌, [], ℕ, None, Some, false, length, IfOk, OnOk};
ghost use Rattle.texml_base.specs.Outside.{Shelf};
ghost use Rattle.texml_token.specs.Numbers.{Table, token_at, tokens_at, TokenWithin, TokensWithin};
ghost use Rattle.texml_scope.specs.Texts.{World};
ghost use Rattle.texml_scope.specs.Numbers.{meaning_at};
ghost use Rattle.texml_expand.specs.State.{change};
ghost use Rattle.texml_expand.specs.Least.{decided};
ghost use Rattle.texml_expand.specs.Take.{back as spec_back};
ghost use Rattle.texml_expand.specs.Gathering.{left, at_end as spec_at_end, of_file_name as spec_of_file_name, named_file, doubled as doubled_list, copies as spec_copies, copied as spec_copied, kept_of, returned as spec_returned, ends_name as spec_ends_name, is_relation as spec_is_relation, judged as spec_judged, of_relation as spec_of_relation};
ghost use Rattle.texml_expand.specs.Quantities.{counts_as as spec_counts_as, shown as spec_shown};
ghost use Rattle.texml_expand.specs.Fronts.{gathered_count, left_count, EndsGathering, at_once, expandable_at, ExpandableWithin, verdict_at, VerdictWithin, PartsWithin};
ghost use Rattle.texml_expand.specs.VariableCodes.{internal_at, InternalWithin};
ghost use Rattle.texml_expand.specs.Expand.{level};
ghost use Rattle.texml_expand.specs.Held.{state_of, world_in, Sound, Kept, Progress, IsAtLimit, ok_at, read_at, Owns, SameFiles, Shrinks, Begun, Puts};
ghost use Rattle.texml_expand.specs.Contract.{Local, Stops, outside, stop_after};
ghost use Rattle.texml_expand.specs.Hearing.{hears, hears_part, Meets};
ghost use Rattle.texml_expand.specs.Doing.{Does};

use super::Engine;
use super::arguments::is_sign;
use super::expanding::{Expandable, Front};
use super::quantities::shown;
use crate::feeding::Verdict;
use crate::gathering::{Gathered, Gathering, doubled};
use crate::internal::Internal;
use crate::stop::Stop;
use std::alloc::{AllocError, Global};
use texml_base::Files;
use texml_input::Read;
use texml_scope::Meaning;
use texml_scope::builtins::ENDCSNAME;
use texml_token::{Token, Tokens, category, fault_code};
use texml_watch::Teller;

// The codes of the relations between numbers: <, = and >.
const LESS: u32 = 60;

const EQUAL: u32 = 61;

const GREATER: u32 = 62;

impl Engine {
    // What is gathered of tokens that are expanded as they come.
    #[cycle(expanding)]
    pub(super) fn gather<F: Files, T: Teller>(
        &mut self,
        files: &mut F,
        tell: &mut T,
        gathering: Gathering,
        deep: usize,
    ) -> Result<Tokens, Stop>
        requires running { self.old.stop ≡ None }
        requires sound { Sound self.old }
        requires owns { Owns (F.shelf files.old) self.old }
        ensures does { Does (hears T.wanting T.heard) (hears_part T.wanting T.part)
            (λ n. (level n).gather gathering []) (ok_at (tokens_at self.new.names) result) self.old self.new (outside (F.shelf files.old) (F.faults files.old) (T.faults tell.old) (T.loan tell.old)) (outside (F.shelf files.new) (F.faults files.new) (T.faults tell.new) (T.loan tell.new)) tell.old tell.new }
        ensures lower { IfOk result (λ list. Shrinks (gathered_count gathering list) (F.shelf files.old) self.old (F.shelf files.new) self.new) }
        ensures within { IfOk result (TokensWithin (length self.new.names)) }
        ensures ends { OnOk result (EndsGathering gathering self.new.input.sources) }
    {
        let mut gathered = Gathered::new(self.alloc);
        'rounds: loop {
            'tokens: loop {
                match self.front(files)? {
                    Front::Nothing => return self.at_end(gathering, &gathered),
                    Front::Plain(read) => {
                        let verdict = match self.judged(gathering, &gathered, read) {
                            Ok(verdict) => verdict,
                            Err(_) => return Err(self.no_memory()),
                        };
                        match verdict {
                            Verdict::TooShort => match gathered.push(read.token) {
                                Ok(()) => {}
                                Err(_) => return Err(self.no_memory()),
                            },
                            Verdict::Yields(list) => {
                                self.leave(gathering, read.token)?;
                                return Ok(list);
                            }
                            Verdict::Refuses(code) => return Err(self.bare_fault(code)),
                        }
                    }
                    Front::Expands(token, found) => {
                        let list = self.at_once(files, tell, gathering, token, found, deep)?;
                        match gathered.extend(&list) {
                            Ok(()) => {}
                            Err(_) => return Err(self.no_memory()),
                        }
                        break;
                    }
                }
            }
        }
    }

    // What the end of the text decides.
    fn at_end(&mut self, gathering: Gathering, gathered: &Gathered) -> Result<Tokens, Stop>
        requires running { self.old.stop ≡ None }
        requires sound { Sound self.old }
        requires list { TokensWithin (length self.old.names) gathered.now }
        ensures ends { Local (decided (spec_at_end gathering (tokens_at self.old.names gathered.now))) (ok_at (tokens_at self.new.names) result) self.old self.new }
        ensures kept { self.new.stop ≡ stop_after result }
        ensures progress { Progress self.old self.new }
        ensures limit { IsAtLimit result self.new }
        ensures files { SameFiles self.old self.new }
        ensures keeps { OnOk result (Kept self.old self.new) }
        ensures same { OnOk result (self.new ≡ self.old) }
        ensures counts { IfOk result (λ list. gathered_count gathering list ≡ 0) }
        ensures within { IfOk result (TokensWithin (length self.new.names)) }
    {
        match gathering {
            Gathering::All => match gathered.tokens() {
                Ok(list) => Ok(list),
                Err(_) => Err(self.no_memory()),
            },
            _ => Err(self.bare_fault(fault_code::FILE_ENDED)),
        }
    }

    // The token that ends the name of a file goes back, unless it is a space.
    fn leave(&mut self, gathering: Gathering, token: Token) -> Result<(), Stop>
        requires running { self.old.stop ≡ None }
        requires sound { Sound self.old }
        requires token { TokenWithin (length self.old.names) token }
        ensures leaves { Local (change (left gathering (token_at self.old.names token))) result self.old self.new }
        ensures kept { self.new.stop ≡ stop_after result }
        ensures progress { Progress self.old self.new }
        ensures limit { IsAtLimit result self.new }
        ensures files { SameFiles self.old self.new }
        ensures keeps { OnOk result (Kept self.old self.new) }
        ensures puts { OnOk result (Puts (left_count gathering) self.old self.new) }
        ensures names { OnOk result (self.new.names ≡ self.old.names) }
    {
        match (gathering, token) {
            (Gathering::FileName, Token::Char(_, _)) => Ok(()),
            (Gathering::FileName, token) => self.put_back(token),
            _ => Ok(()),
        }
    }

    // A token goes back.
    fn put_back(&mut self, token: Token) -> Result<(), Stop>
        requires running { self.old.stop ≡ None }
        requires sound { Sound self.old }
        requires token { TokenWithin (length self.old.names) token }
        ensures puts_back { Local (change (spec_back (token_at self.old.names token) false)) result self.old self.new }
        ensures kept { self.new.stop ≡ stop_after result }
        ensures progress { Progress self.old self.new }
        ensures limit { IsAtLimit result self.new }
        ensures files { SameFiles self.old self.new }
        ensures keeps { OnOk result (Kept self.old self.new) }
        ensures puts { OnOk result (Puts 1 self.old self.new) }
        ensures names { OnOk result (self.new.names ≡ self.old.names) }
    {
        match self.input.back(token, false) {
            Ok(()) => Ok(()),
            Err(_) => Err(self.no_memory()),
        }
    }

    // An expansion, and the tokens that it gives at once: those of `\the` in a group.
    #[cycle(expanding)]
    fn at_once<F: Files, T: Teller>(
        &mut self,
        files: &mut F,
        tell: &mut T,
        gathering: Gathering,
        token: Token,
        found: Expandable,
        deep: usize,
    ) -> Result<Tokens, Stop>
        requires running { self.old.stop ≡ None }
        requires sound { Sound self.old }
        requires owns { Owns (F.shelf files.old) self.old }
        requires token { TokenWithin (length self.old.names) token }
        requires found { ExpandableWithin (length self.old.names) found }
        ensures does { Does (hears T.wanting T.heard) (hears_part T.wanting T.part)
            (λ n. at_once (level n) (token_at self.old.names token) (expandable_at self.old.names found) (spec_copies gathering (expandable_at self.old.names found))) (ok_at (tokens_at self.new.names) result) self.old self.new (outside (F.shelf files.old) (F.faults files.old) (T.faults tell.old) (T.loan tell.old)) (outside (F.shelf files.new) (F.faults files.new) (T.faults tell.new) (T.loan tell.new)) tell.old tell.new }
        ensures begins { OnOk result (Begun self.old self.new) }
        ensures within { IfOk result (TokensWithin (length self.new.names)) }
    {
        if copies(gathering, &found) {
            self.copy(files, tell, token, deep)
        } else {
            self.expand(files, tell, token, found, deep)?;
            Ok(Tokens::new(self.alloc))
        }
    }

    // An expansion of `\the`, of whose tokens those of a list are taken as they are.
    #[cycle(expanding)]
    fn copy<F: Files, T: Teller>(
        &mut self,
        files: &mut F,
        tell: &mut T,
        token: Token,
        deep: usize,
    ) -> Result<Tokens, Stop>
        requires running { self.old.stop ≡ None }
        requires sound { Sound self.old }
        requires owns { Owns (F.shelf files.old) self.old }
        requires token { TokenWithin (length self.old.names) token }
        ensures does { Does (hears T.wanting T.heard) (hears_part T.wanting T.part)
            (λ n. (level n).copy (token_at self.old.names token)) (ok_at (tokens_at self.new.names) result) self.old self.new (outside (F.shelf files.old) (F.faults files.old) (T.faults tell.old) (T.loan tell.old)) (outside (F.shelf files.new) (F.faults files.new) (T.faults tell.new) (T.loan tell.new)) tell.old tell.new }
        ensures begins { OnOk result (Begun self.old self.new) }
        ensures within { IfOk result (TokensWithin (length self.new.names)) }
    {
        self.begin()?;
        let internal = self.next_internal(files, tell, deep)?;
        self.copied(tell, token, internal)
    }

    // Ends an expansion of `\the`: the tokens of a list are taken at once, and a quantity goes back.
    fn copied<T: Teller>(
        &mut self,
        tell: &mut T,
        token: Token,
        internal: Internal,
    ) -> Result<Tokens, Stop>
        requires running { self.old.stop ≡ None }
        requires sound { Sound self.old }
        requires nested { 1 ≤ self.old.nesting }
        requires token { TokenWithin (length self.old.names) token }
        requires internal { InternalWithin (length self.old.names) internal }
        ensures copies { (shelf : Shelf) → Meets (hears T.wanting T.heard) (hears_part T.wanting T.part)
            (spec_copied (token_at self.old.names token) (internal_at self.old.names internal) (state_of shelf self.old)) (ok_at (tokens_at self.new.names) result) (state_of shelf self.new) tell.old tell.new }
        ensures stops { (shelf : Shelf) (faults : ℕ) → Stops result (outside shelf faults (T.faults tell.old) (T.loan tell.old)) (outside shelf faults (T.faults tell.new) (T.loan tell.new)) self.new.stop }
        ensures kept { self.new.stop ≡ stop_after result }
        ensures keeps { OnOk result (Kept self.old self.new) }
        ensures nesting { OnOk result (self.new.nesting ≡ self.old.nesting - 1) }
        ensures begun { OnOk result (self.new.begun ≡ self.old.begun) }
        ensures progress { Progress self.old self.new }
        ensures limit { IsAtLimit result self.new }
        ensures files { SameFiles self.old self.new }
        ensures within { IfOk result (TokensWithin (length self.new.names)) }
    {
        let parts = match parts_of(self.alloc, internal) {
            Ok(parts) => parts,
            Err(_) => return Err(self.no_memory()),
        };
        self.finish_with(tell, token, &parts.back, &parts.told)?;
        Ok(parts.kept)
    }

    // What a token that isn't expanded decides behind those that were gathered.
    fn judged(
        &self,
        gathering: Gathering,
        gathered: &Gathered,
        read: Read,
    ) -> Result<Verdict<Tokens>, AllocError>
        requires sound { Sound self.now }
        requires token { TokenWithin (length self.now.names) read.token }
        requires list { TokensWithin (length self.now.names) gathered.now }
        ensures is { IfOk result (λ v. verdict_at self.now.names v ≡ spec_judged gathering (world_in self.now) (tokens_at self.now.names gathered.now) (read_at self.now.names read)) }
        ensures within { IfOk result (VerdictWithin (length self.now.names)) }
    {
        match gathering {
            Gathering::Name => self.of_name(gathered, read),
            Gathering::Relation => self.of_relation(read),
            Gathering::Group => of_group(gathered, read),
            Gathering::FileName => of_file_name(self.alloc, gathered, read.token),
            Gathering::All => Ok(Verdict::TooShort),
        }
    }

    // A character belongs to a name, and `\endcsname` ends it.
    fn of_name(&self, gathered: &Gathered, read: Read) -> Result<Verdict<Tokens>, AllocError>
        requires sound { Sound self.now }
        requires token { TokenWithin (length self.now.names) read.token }
        requires list { TokensWithin (length self.now.names) gathered.now }
        ensures is { IfOk result (λ v. verdict_at self.now.names v ≡ spec_judged Gathering.Name (world_in self.now) (tokens_at self.now.names gathered.now) (read_at self.now.names read)) }
        ensures within { IfOk result (VerdictWithin (length self.now.names)) }
    {
        let token = self.counts_as(read)?;
        if let Token::Char(_, _) = token {
            return Ok(Verdict::TooShort);
        }
        if ends_name(&self.means(token)?) {
            return Ok(Verdict::Yields(gathered.tokens()?));
        }
        Ok(Verdict::Refuses(fault_code::MISSING_ENDCSNAME))
    }

    // Behind spaces comes <, = or > of category 12.
    fn of_relation(&self, read: Read) -> Result<Verdict<Tokens>, AllocError>
        requires sound { Sound self.now }
        requires token { TokenWithin (length self.now.names) read.token }
        ensures is { IfOk result (λ v. verdict_at self.now.names v ≡ spec_of_relation (world_in self.now) (spec_counts_as (world_in self.now) (read_at self.now.names read))) }
        ensures within { IfOk result (VerdictWithin (length self.now.names)) }
    {
        let token = self.counts_as(read)?;
        if self.is_space(token)? {
            return Ok(Verdict::TooShort);
        }
        if is_relation(token) {
            let list = Tokens::from_slice(self.alloc, &[token])?;
            return Ok(Verdict::Yields(list));
        }
        Ok(Verdict::Refuses(fault_code::MISSING_NUMBER))
    }
}

// A character belongs to the name of a file, a space ends it, and so does another token.
fn of_file_name(
    alloc: Global,
    gathered: &Gathered,
    token: Token,
) -> Result<Verdict<Tokens>, AllocError>
    ensures is { IfOk result (λ v. (texts : Table) → verdict_at texts v ≡ spec_of_file_name (tokens_at texts gathered.now) (token_at texts token)) }
    ensures within { IfOk result (λ v. (count : ℕ) → TokensWithin count gathered.now → VerdictWithin count v) }
{
    match token {
        Token::Char(_, category::SPACE) => Ok(begun_name(gathered.file_part(alloc)?)),
        Token::Char(_, _) => Ok(Verdict::TooShort),
        _ => Ok(Verdict::Yields(gathered.file_part(alloc)?)),
    }
}

// The name is complete, if it has begun.
fn begun_name(name: Tokens) -> Verdict<Tokens>
    ensures is { (texts : Table) → verdict_at texts result ≡ named_file (tokens_at texts name) Verdict.TooShort }
    ensures within { (count : ℕ) → TokensWithin count name → VerdictWithin count result }
{
    if name.as_slice().is_empty() {
        Verdict::TooShort
    } else {
        Verdict::Yields(name)
    }
}

// The tokens that an expansion of `\the` puts back, those that it is told to give, and those that are taken at once.
#[derive(Drop)]
struct Parts {
    back: Tokens,
    told: Tokens,
    kept: Tokens,
}

// Of a list all are taken, and of a quantity all go back.
fn parts_of(alloc: Global, internal: Internal) -> Result<Parts, AllocError>
    ensures back { IfOk result (λ parts. (texts : Table) → tokens_at texts parts.back ≡ spec_returned (internal_at texts internal)) }
    ensures told { IfOk result (λ parts. (texts : Table) → tokens_at texts parts.told ≡ spec_shown (internal_at texts internal)) }
    ensures kept { IfOk result (λ parts. (texts : Table) → tokens_at texts parts.kept ≡ kept_of (internal_at texts internal)) }
    ensures within { IfOk result (λ parts. (count : ℕ) → InternalWithin count internal → PartsWithin count parts) }
{
    match internal {
        Internal::Tokens(list) => taken(alloc, list),
        quantity => returned(alloc, shown(alloc, quantity)?),
    }
}

// These all are taken.
fn taken(alloc: Global, list: Tokens) -> Result<Parts, AllocError>
    ensures back { IfOk result (λ parts. parts.back ≡ []) }
    ensures told { IfOk result (λ parts. parts.told ≡ list) }
    ensures kept { IfOk result (λ parts. (texts : Table) → tokens_at texts parts.kept ≡ doubled_list (tokens_at texts list)) }
    ensures within { IfOk result (λ parts. (count : ℕ) → TokensWithin count list → PartsWithin count parts) }
{
    let kept = doubled(alloc, list.as_slice())?;
    Ok(Parts {
        back: Tokens::new(alloc),
        told: list,
        kept,
    })
}

// These all go back.
fn returned(alloc: Global, list: Tokens) -> Result<Parts, AllocError>
    ensures { IfOk result (λ parts. parts ≡ record { back = list; told = list; kept = [] }) }
{
    let back = list.clone()?;
    Ok(Parts {
        back,
        told: list,
        kept: Tokens::new(alloc),
    })
}

// Whether an expansion gives its tokens at once where so is gathered.
fn copies(gathering: Gathering, found: &Expandable) -> bool
    ensures { (texts : Table) → result ≡ spec_copies gathering (expandable_at texts found.now) }
{
    match (gathering, found) {
        (Gathering::Group, Expandable::The) => true,
        _ => false,
    }
}

// Whether a meaning is that of `\endcsname`.
fn ends_name(meaning: &Meaning) -> bool
    ensures { (texts : Table) → result ≡ spec_ends_name (meaning_at texts meaning.now) }
{
    match meaning {
        Meaning::Builtin(place) => *place == ENDCSNAME,
        _ => false,
    }
}

// Whether a token is a relation between numbers.
fn is_relation(token: Token) -> bool
    ensures { (texts : Table) → result ≡ spec_is_relation (token_at texts token) }
{
    is_sign(LESS, token) || is_sign(EQUAL, token) || is_sign(GREATER, token)
}

// A token in a group counts as itself, and no text may have ended before it.
fn of_group(gathered: &Gathered, read: Read) -> Result<Verdict<Tokens>, AllocError>
    ensures is { IfOk result (λ v. (texts : Table) (world : World) → verdict_at texts v ≡ spec_judged Gathering.Group world (tokens_at texts gathered.now) (read_at texts read)) }
    ensures within { IfOk result (λ v. (count : ℕ) → TokensWithin count gathered.now → VerdictWithin count v) }
{
    if read.crossed {
        return Ok(Verdict::Refuses(fault_code::FILE_ENDED));
    }
    if gathered.closes(read.token)? {
        return Ok(Verdict::Yields(gathered.tokens()?));
    }
    Ok(Verdict::TooShort)
}
