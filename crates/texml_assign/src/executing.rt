//! Executing: prefixes, and a row for each command.

ghost use Rattle.std.specs.Prelude.{◌≡◌, length, None, IfOk, IfSome, OnOk};
ghost use Rattle.texml_base.specs.Outside.{Shelf};
ghost use Rattle.texml_token.specs.Numbers.{Table, token_at, TokenWithin};
ghost use Rattle.texml_scope.specs.Numbers.{meaning_at};
ghost use Rattle.texml_expand.specs.State.{State};
ghost use Rattle.texml_expand.specs.Contract.{AnswersKept, Stops, outside};
ghost use Rattle.texml_expand.specs.Hearing.{hears, hears_part, FollowsTold};
ghost use Rattle.texml_expand.specs.Spending.{SpendsBy};
ghost use Rattle.texml_expand.specs.Held.{state_of, Sound, Kept, IsAtLimit, Owns, Holding, Shrinks, Progress};
ghost use Rattle.texml_assign.specs.Doing.{Does};
ghost use Rattle.texml_assign.specs.Table.{executable_of as spec_executable_of};
ghost use Rattle.texml_assign.specs.Operands.{with_token};
ghost use Rattle.texml_assign.specs.Sets.{read_after as spec_read_after, keep_token};
ghost use Rattle.texml_assign.specs.Execute.{row as spec_row, perform as spec_perform, followed, prefix_word, prefix_turn, prefixed as spec_prefixed, execute_prefixed as spec_execute_prefixed, execute_word as spec_execute_word, execute as spec_execute, executes};
ghost use Rattle.texml_assign.specs.Behind.{turn_of};

use crate::arithmetic::arithmetic;
use crate::assignments::assignment;
use crate::define::{define, let_to};
use crate::fillers::ignore_spaces;
use crate::letters::change_case;
use crate::new_command::new_command;
use crate::new_if::new_if;
use crate::operands::next_token;
use crate::sets::{begin_group, end_group, put_kept, read_after};
use crate::short_names::short_name;
use crate::table::{
    Command, Executable, Prefix, Prefixes, executable_at, is_assignment, may_follow, with_prefix,
};
use crate::targets::register_of;
use std::alloc::{AllocError, Global};
use texml_base::Files;
use texml_expand::{Engine, Stop, means_space};
use texml_scope::{GroupKind, Meaning};
use texml_token::{Token, fault_code};
use texml_watch::Teller;

/// Whether a token was executed, or means no command and no prefix, so that nothing was done.
#[derive(Clone, Copy, Debug, PartialEq, Eq)]
pub enum Executed {
    Yes,
    NotMine,
}

// What stands behind prefixes: one more of them or what says nothing, and then all of them so far; a command; or what may not
// stand there.
#[derive(Clone, Copy, Debug, PartialEq, Eq)]
enum Behind {
    Prefixes(Prefixes),
    Command(Command),
    Misfit,
}

/// Does what a token asks for that was fetched, where it means a command that changes the world, or a prefix of one: it
/// reads what belongs to the command, changes the world, and puts the token of `\afterassignment` back behind an
/// assignment. Each expansion on the way is told to `tell`, where that wants records (The TeXbook, chapters 20 and 24).
///
/// # Errors
///
/// `Tex` with the faults of the command: fault 4 at the end of what is to be read, and where a file ends inside a definition; fault 21
/// where a prefix stands before something else than an assignment; fault 18 where a name is missing, and 22 where a list in braces is;
/// fault 14 at a bad parameter; faults 16 and 17 where no group of the kind can end; fault 11 at a register, a code or a character that
/// isn't there; faults 6 to 9 of numbers and dimensions, and 10 where a sum, a product or a quotient is too large; fault 23 where a new
/// command is taken; and the faults of `Engine::fetch` where it expands: 1 to 6, 11 to 13, 15, 19, 20 and 25.
/// `Limit` where one expansion too many would begin. `ReadFailed` and `TellFailed` only where the count of faults of `files` or `tell` rose
/// in this call, `NoMemory` where memory was refused; the records told until then are the first of those that would be told. And the
/// stop that is kept.
#[inline(always)]
pub fn execute<F: Files, T: Teller>(
    alloc: Global,
    engine: &mut Engine,
    files: &mut F,
    tell: &mut T,
    token: Token,
) -> Result<Executed, Stop>
    requires sound { engine.old.stop ≡ None → Sound engine.old }
    requires owns { Owns (F.shelf files.old) engine.old }
    requires token { engine.old.stop ≡ None → TokenWithin (length engine.old.names) token }
    ensures follows { engine.old.stop ≡ None → FollowsTold (hears T.wanting T.heard) (hears_part T.wanting T.part) (F.shelf files.old) (executes (token_at engine.old.names token) (state_of (F.shelf files.old) engine.old)) result (state_of (F.shelf files.new) engine.new) tell.old tell.new }
    ensures spends { engine.old.stop ≡ None → SpendsBy (executes (token_at engine.old.names token) (state_of (F.shelf files.old) engine.old)) result (F.shelf files.old) (F.shelf files.new) engine.old engine.new }
    ensures stops { engine.old.stop ≡ None → Stops result (outside (F.shelf files.old) (F.faults files.old) (T.faults tell.old) (T.loan tell.old)) (outside (F.shelf files.new) (F.faults files.new) (T.faults tell.new) (T.loan tell.new)) engine.new.stop }
    ensures lower { engine.old.stop ≡ None → OnOk result (Shrinks 0 (F.shelf files.old) engine.old (F.shelf files.new) engine.new) }
    ensures keeps { engine.old.stop ≡ None → OnOk result (Kept engine.old engine.new) }
    ensures advances { Progress engine.old engine.new }
    ensures limit { engine.old.stop ≡ None → IsAtLimit result engine.new }
    ensures same { IfOk result (λ done. done ≡ Executed.NotMine → (engine.new ≡ engine.old) × (files.new ≡ files.old) × (tell.new ≡ tell.old)) }
    ensures stays { IfSome engine.old.stop (λ stop. AnswersKept stop result × (engine.new ≡ engine.old) × (files.new ≡ files.old) × (tell.new ≡ tell.old)) }
    ensures holds { Holding (F.shelf files.old) (F.shelf files.new) engine.old engine.new }
{
    engine.running()?;
    execute_meaning(alloc, engine, files, tell, token)
}

// Does what a token asks for by its meaning.
#[inline(always)]
fn execute_meaning<F: Files, T: Teller>(
    alloc: Global,
    engine: &mut Engine,
    files: &mut F,
    tell: &mut T,
    token: Token,
) -> Result<Executed, Stop>
    requires running { engine.old.stop ≡ None }
    requires sound { Sound engine.old }
    requires owns { Owns (F.shelf files.old) engine.old }
    requires token { TokenWithin (length engine.old.names) token }
    ensures does { Does (hears T.wanting T.heard) (hears_part T.wanting T.part) (spec_execute (token_at engine.old.names token)) result engine.old engine.new
        (outside (F.shelf files.old) (F.faults files.old) (T.faults tell.old) (T.loan tell.old)) (outside (F.shelf files.new) (F.faults files.new) (T.faults tell.new) (T.loan tell.new)) tell.old tell.new }
    ensures same { IfOk result (λ done. done ≡ Executed.NotMine → (engine.new ≡ engine.old) × (files.new ≡ files.old) × (tell.new ≡ tell.old)) }
{
    if let Token::Char(_, _) = token {
        return Ok(Executed::NotMine);
    }
    let meaning = match engine.means(token) {
        Ok(meaning) => meaning,
        Err(_) => return Err(engine.no_memory()),
    };
    match executable_of(&meaning) {
        None => Ok(Executed::NotMine),
        Some(word) => {
            execute_word(alloc, engine, files, tell, word)?;
            Ok(Executed::Yes)
        }
    }
}

// Does a command, or that behind a prefix.
fn execute_word<F: Files, T: Teller>(
    alloc: Global,
    engine: &mut Engine,
    files: &mut F,
    tell: &mut T,
    word: Executable,
) -> Result<(), Stop>
    requires running { engine.old.stop ≡ None }
    requires sound { Sound engine.old }
    requires owns { Owns (F.shelf files.old) engine.old }
    ensures does { Does (hears T.wanting T.heard) (hears_part T.wanting T.part) (spec_execute_word word) result engine.old engine.new
        (outside (F.shelf files.old) (F.faults files.old) (T.faults tell.old) (T.loan tell.old)) (outside (F.shelf files.new) (F.faults files.new) (T.faults tell.new) (T.loan tell.new)) tell.old tell.new }
{
    match word {
        Executable::Command(command) => {
            perform(alloc, engine, files, tell, Prefixes::NONE, command)?;
            Ok(())
        }
        Executable::Prefix(prefix) => {
            execute_prefixed(alloc, engine, files, tell, prefix)?;
            Ok(())
        }
    }
}

// Does the command behind a prefix.
fn execute_prefixed<F: Files, T: Teller>(
    alloc: Global,
    engine: &mut Engine,
    files: &mut F,
    tell: &mut T,
    prefix: Prefix,
) -> Result<(), Stop>
    requires running { engine.old.stop ≡ None }
    requires sound { Sound engine.old }
    requires owns { Owns (F.shelf files.old) engine.old }
    ensures does { Does (hears T.wanting T.heard) (hears_part T.wanting T.part) (spec_execute_prefixed prefix) result engine.old engine.new
        (outside (F.shelf files.old) (F.faults files.old) (T.faults tell.old) (T.loan tell.old)) (outside (F.shelf files.new) (F.faults files.new) (T.faults tell.new) (T.loan tell.new)) tell.old tell.new }
{
    let first = with_prefix(Prefixes::NONE, prefix);
    let found = prefixed(engine, files, tell, first)?;
    perform(alloc, engine, files, tell, found.0, found.1)
}

// What a meaning is, if it can be executed.
fn executable_of(meaning: &Meaning) -> Option<Executable>
    ensures { (texts : Table) → result ≡ spec_executable_of (meaning_at texts meaning.now) }
{
    match meaning {
        Meaning::Builtin(place) => executable_at(*place),
        Meaning::Quantity(key) => match register_of(*key) {
            Some(target) => Some(Executable::Command(Command::Assign(target))),
            None => None,
        },
        _ => None,
    }
}

// Does a command, and behind an assignment puts the kept token back.
fn perform<F: Files, T: Teller>(
    alloc: Global,
    engine: &mut Engine,
    files: &mut F,
    tell: &mut T,
    prefixes: Prefixes,
    command: Command,
) -> Result<(), Stop>
    requires running { engine.old.stop ≡ None }
    requires sound { Sound engine.old }
    requires owns { Owns (F.shelf files.old) engine.old }
    ensures does { Does (hears T.wanting T.heard) (hears_part T.wanting T.part) (spec_perform prefixes command) result engine.old engine.new
        (outside (F.shelf files.old) (F.faults files.old) (T.faults tell.old) (T.loan tell.old)) (outside (F.shelf files.new) (F.faults files.new) (T.faults tell.new) (T.loan tell.new)) tell.old tell.new }
{
    row(alloc, engine, files, tell, prefixes, command)?;
    if !is_assignment(command) {
        return Ok(());
    }
    put_kept(engine)
}

// What a command does, with the prefixes before it.
fn row<F: Files, T: Teller>(
    alloc: Global,
    engine: &mut Engine,
    files: &mut F,
    tell: &mut T,
    prefixes: Prefixes,
    command: Command,
) -> Result<(), Stop>
    requires running { engine.old.stop ≡ None }
    requires sound { Sound engine.old }
    requires owns { Owns (F.shelf files.old) engine.old }
    ensures does { Does (hears T.wanting T.heard) (hears_part T.wanting T.part) (spec_row prefixes command) result engine.old engine.new
        (outside (F.shelf files.old) (F.faults files.old) (T.faults tell.old) (T.loan tell.old)) (outside (F.shelf files.new) (F.faults files.new) (T.faults tell.new) (T.loan tell.new)) tell.old tell.new }
{
    match command {
        Command::Relax => Ok(()),
        Command::Def => {
            define(
                alloc,
                engine,
                files,
                tell,
                prefixes.global,
                false,
                prefixes.long,
            )?;
            Ok(())
        }
        Command::Gdef => {
            define(alloc, engine, files, tell, true, false, prefixes.long)?;
            Ok(())
        }
        Command::Edef => {
            define(
                alloc,
                engine,
                files,
                tell,
                prefixes.global,
                true,
                prefixes.long,
            )?;
            Ok(())
        }
        Command::Xdef => {
            define(alloc, engine, files, tell, true, true, prefixes.long)?;
            Ok(())
        }
        Command::Let => {
            let_to(engine, files, tell, prefixes.global)?;
            Ok(())
        }
        Command::BeginGroup => {
            begin_group(engine, GroupKind::Begin)?;
            Ok(())
        }
        Command::EndGroup => {
            end_group(engine, GroupKind::Begin)?;
            Ok(())
        }
        Command::AfterGroup => {
            after_group(engine, files, tell)?;
            Ok(())
        }
        Command::AfterAssignment => {
            after_assignment(engine, files, tell)?;
            Ok(())
        }
        Command::NewCommand(naming) => {
            new_command(alloc, engine, files, tell, naming)?;
            Ok(())
        }
        Command::NewIf => {
            new_if(alloc, engine, files, tell)?;
            Ok(())
        }
        Command::ChangeCase(case) => {
            change_case(alloc, engine, files, tell, case)?;
            Ok(())
        }
        Command::IgnoreSpaces => {
            ignore_spaces(engine, files, tell)?;
            Ok(())
        }
        Command::Assign(target) => {
            assignment(engine, files, tell, prefixes.global, target)?;
            Ok(())
        }
        Command::Short(what) => {
            short_name(engine, files, tell, prefixes.global, what)?;
            Ok(())
        }
        Command::Arithmetic(what) => {
            arithmetic(engine, files, tell, prefixes.global, what)?;
            Ok(())
        }
    }
}

// Keeps the next token for after the innermost group.
fn after_group<F: Files, T: Teller>(
    engine: &mut Engine,
    files: &mut F,
    tell: &mut T,
) -> Result<(), Stop>
    requires running { engine.old.stop ≡ None }
    requires sound { Sound engine.old }
    requires owns { Owns (F.shelf files.old) engine.old }
    ensures does { Does (hears T.wanting T.heard) (hears_part T.wanting T.part) (λ n. with_token spec_read_after) result engine.old engine.new
        (outside (F.shelf files.old) (F.faults files.old) (T.faults tell.old) (T.loan tell.old)) (outside (F.shelf files.new) (F.faults files.new) (T.faults tell.new) (T.loan tell.new)) tell.old tell.new }
{
    let token = next_token(engine, files, tell)?;
    read_after(engine, token)
}

// Keeps the next token for after the next assignment.
fn after_assignment<F: Files, T: Teller>(
    engine: &mut Engine,
    files: &mut F,
    tell: &mut T,
) -> Result<(), Stop>
    requires running { engine.old.stop ≡ None }
    requires sound { Sound engine.old }
    requires owns { Owns (F.shelf files.old) engine.old }
    ensures does { Does (hears T.wanting T.heard) (hears_part T.wanting T.part) (λ n. with_token keep_token) result engine.old engine.new
        (outside (F.shelf files.old) (F.faults files.old) (T.faults tell.old) (T.loan tell.old)) (outside (F.shelf files.new) (F.faults files.new) (T.faults tell.new) (T.loan tell.new)) tell.old tell.new }
{
    let token = next_token(engine, files, tell)?;
    engine.keep(Some(token));
    Ok(())
}

// The command behind prefixes, with all that stand before it.
fn prefixed<F: Files, T: Teller>(
    engine: &mut Engine,
    files: &mut F,
    tell: &mut T,
    first: Prefixes,
) -> Result<(Prefixes, Command), Stop>
    requires running { engine.old.stop ≡ None }
    requires sound { Sound engine.old }
    requires owns { Owns (F.shelf files.old) engine.old }
    ensures does { Does (hears T.wanting T.heard) (hears_part T.wanting T.part) (spec_prefixed first) result engine.old engine.new
        (outside (F.shelf files.old) (F.faults files.old) (T.faults tell.old) (T.loan tell.old)) (outside (F.shelf files.new) (F.faults files.new) (T.faults tell.new) (T.loan tell.new)) tell.old tell.new }
{
    let mut prefixes = first;
    'rounds: loop {
        let begun = engine.begun();
        'tokens: loop {
            let token = match engine.fetch(files, tell)? {
                Some(token) => token,
                None => return Err(engine.bare_fault(fault_code::FILE_ENDED)),
            };
            match token_behind(engine, prefixes, token) {
                Ok(Behind::Prefixes(more)) => prefixes = more,
                Ok(Behind::Command(command)) => return Ok((prefixes, command)),
                Ok(Behind::Misfit) => return Err(engine.bare_fault(fault_code::BAD_PREFIX)),
                Err(_) => return Err(engine.no_memory()),
            }
            if engine.begun() != begun {
                break;
            }
        }
    }
}

// What a token behind prefixes is.
fn token_behind(engine: &Engine, prefixes: Prefixes, token: Token) -> Result<Behind, AllocError>
    requires sound { Sound engine.now }
    requires token { TokenWithin (length engine.now.names) token }
    ensures { IfOk result (λ b. (shelf : Shelf) → prefix_turn prefixes (token_at engine.now.names token) 0 (state_of shelf engine.now) ≡ turn_of prefixes b (state_of shelf engine.now)) }
{
    let meaning = engine.means(token)?;
    if means_space(&meaning) {
        return Ok(Behind::Prefixes(prefixes));
    }
    Ok(word_behind(prefixes, executable_of(&meaning)))
}

// What a word behind prefixes is.
fn word_behind(prefixes: Prefixes, word: Option<Executable>) -> Behind
    ensures { (s : State) → prefix_word prefixes word s ≡ turn_of prefixes result s }
{
    match word {
        Some(Executable::Prefix(prefix)) => Behind::Prefixes(with_prefix(prefixes, prefix)),
        Some(Executable::Command(Command::Relax)) => Behind::Prefixes(prefixes),
        Some(Executable::Command(command)) => command_behind(prefixes, command),
        None => Behind::Misfit,
    }
}

// What a command behind prefixes is.
fn command_behind(prefixes: Prefixes, command: Command) -> Behind
    ensures { (s : State) → followed prefixes command s ≡ turn_of prefixes result s }
{
    if may_follow(prefixes, command) {
        Behind::Command(command)
    } else {
        Behind::Misfit
    }
}
