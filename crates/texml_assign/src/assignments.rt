//! Assignments to variables.

ghost use Rattle.std.specs.Prelude.{◌≡◌, ◌==◌, if◌then◌else◌, length, None, Some, true, IfOk, IfSome, OnOk, option_map};
ghost use Rattle.texml_token.specs.declared.category.TheConstants.{BEGIN_GROUP};
ghost use Rattle.texml_token.specs.Numbers.{Table, OptionWithin};
ghost use Rattle.texml_scope.specs.Numbers.{key_at, value_at, meaning_at, KeyWithin, ValueWithin};
ghost use Rattle.texml_fixed.specs.Arithmetic.{IsWithin};
ghost use Rattle.texml_scope.specs.World.{MaySet, IsNumber, IsCategory, IsCode, IsGlue, IsList};
ghost use Rattle.texml_expand.specs.Contract.{Local, outside, stop_after};
ghost use Rattle.texml_expand.specs.Fronts.{looked_at, LookedWithin};
ghost use Rattle.texml_expand.specs.Hearing.{hears, hears_part};
ghost use Rattle.texml_expand.specs.Held.{Sound, Kept, ok_at, Owns};
ghost use Rattle.texml_assign.specs.Doing.{Does};
ghost use Rattle.texml_assign.specs.Targets.{variable_of as spec_variable_of, is_list as is_list_variable};
ghost use Rattle.texml_assign.specs.TargetCodes.{IsVariable, StartsList};
ghost use Rattle.texml_assign.specs.Assignments.{next_number as spec_next_number, category_of as spec_category_of, next_category as spec_next_category, next_code as spec_next_code, next_dimension as spec_next_dimension, next_glue as spec_next_glue, register_list as spec_register_list, begins_list as spec_begins_list, list_start as spec_list_start, absorbed_list as spec_absorbed_list, copied_list as spec_copied_list, list_from as spec_list_from, list_by as spec_list_by, next_list as spec_next_list, value_for as spec_value_for, assign_next as spec_assign_next, assign_to as spec_assign_to, assignment as spec_assignment};

use crate::fillers::{Filler, first_behind, optional_equals};
use crate::sets::set;
use crate::targets::{Target, is_list, target_key, target_of, variable_of};
use texml_base::Files;
use texml_expand::{Engine, Index, Looked, Stop};
use texml_scope::{Key, Meaning, Value};
use texml_token::{category, fault_code};
use texml_watch::Teller;

/// Where a list of tokens comes from: a group, or a register.
#[derive(Clone, Copy, Debug, PartialEq, Eq)]
pub enum ListStart {
    Group,
    Register(Target),
}

/// Assigns to a variable: what is assigned to, an equals sign, which may be missing, and a value.
///
/// # Errors
///
/// `Tex` with fault 11 where a register, a character or a category has no such number, with fault 22 where no list of tokens
/// comes, with fault 4 where a text ends in one, and the faults of the engine's readings. The stops of the engine.
pub fn assignment<F: Files, T: Teller>(
    engine: &mut Engine,
    files: &mut F,
    tell: &mut T,
    global: bool,
    target: Target,
) -> Result<(), Stop>
    requires running { engine.old.stop ≡ None }
    requires sound { Sound engine.old }
    requires owns { Owns (F.shelf files.old) engine.old }
    ensures does { Does (hears T.wanting T.heard) (hears_part T.wanting T.part) (spec_assignment global target) result engine.old engine.new
        (outside (F.shelf files.old) (F.faults files.old) (T.faults tell.old) (T.loan tell.old)) (outside (F.shelf files.new) (F.faults files.new) (T.faults tell.new) (T.loan tell.new)) tell.old tell.new }
{
    let key = target_key(engine, files, tell, target)?;
    assign_to(engine, files, tell, global, key)
}

// Assigns to a key, behind an equals sign, which may be missing.
fn assign_to<F: Files, T: Teller>(
    engine: &mut Engine,
    files: &mut F,
    tell: &mut T,
    global: bool,
    key: Key,
) -> Result<(), Stop>
    requires running { engine.old.stop ≡ None }
    requires sound { Sound engine.old }
    requires owns { Owns (F.shelf files.old) engine.old }
    requires key { IsVariable key }
    requires within { KeyWithin (length engine.old.names) key }
    ensures does { Does (hears T.wanting T.heard) (hears_part T.wanting T.part) (spec_assign_to global (key_at engine.old.names key)) result engine.old engine.new
        (outside (F.shelf files.old) (F.faults files.old) (T.faults tell.old) (T.loan tell.old)) (outside (F.shelf files.new) (F.faults files.new) (T.faults tell.new) (T.loan tell.new)) tell.old tell.new }
{
    optional_equals(engine, files, tell)?;
    assign_next(engine, files, tell, global, key)
}

// Assigns the value that comes next to a key.
fn assign_next<F: Files, T: Teller>(
    engine: &mut Engine,
    files: &mut F,
    tell: &mut T,
    global: bool,
    key: Key,
) -> Result<(), Stop>
    requires running { engine.old.stop ≡ None }
    requires sound { Sound engine.old }
    requires owns { Owns (F.shelf files.old) engine.old }
    requires key { IsVariable key }
    requires within { KeyWithin (length engine.old.names) key }
    ensures does { Does (hears T.wanting T.heard) (hears_part T.wanting T.part) (spec_assign_next global (key_at engine.old.names key)) result engine.old engine.new
        (outside (F.shelf files.old) (F.faults files.old) (T.faults tell.old) (T.loan tell.old)) (outside (F.shelf files.new) (F.faults files.new) (T.faults tell.new) (T.loan tell.new)) tell.old tell.new }
{
    let value = value_for(engine, files, tell, key)?;
    set(engine, global, key, value)
}

// What a key is assigned.
fn value_for<F: Files, T: Teller>(
    engine: &mut Engine,
    files: &mut F,
    tell: &mut T,
    key: Key,
) -> Result<Value, Stop>
    requires running { engine.old.stop ≡ None }
    requires sound { Sound engine.old }
    requires owns { Owns (F.shelf files.old) engine.old }
    requires key { IsVariable key }
    ensures does { Does (hears T.wanting T.heard) (hears_part T.wanting T.part) (spec_value_for (key_at engine.old.names key)) (ok_at (value_at engine.new.names) result) engine.old engine.new
        (outside (F.shelf files.old) (F.faults files.old) (T.faults tell.old) (T.loan tell.old)) (outside (F.shelf files.new) (F.faults files.new) (T.faults tell.new) (T.loan tell.new)) tell.old tell.new }
    ensures within { IfOk result (ValueWithin (length engine.new.names)) }
    ensures may { IfOk result (MaySet key) }
{
    match key {
        Key::Cat(_) => next_category(engine, files, tell),
        Key::Lower(_) | Key::Upper(_) => next_code(engine, files, tell),
        Key::Dimen(_) => next_dimension(engine, files, tell),
        Key::Skip(_) => next_glue(engine, files, tell),
        Key::Toks(_) => next_list(engine, files, tell),
        _ => next_number(engine, files, tell),
    }
}

// The number that comes next.
fn next_number<F: Files, T: Teller>(
    engine: &mut Engine,
    files: &mut F,
    tell: &mut T,
) -> Result<Value, Stop>
    requires running { engine.old.stop ≡ None }
    requires sound { Sound engine.old }
    requires owns { Owns (F.shelf files.old) engine.old }
    ensures does { Does (hears T.wanting T.heard) (hears_part T.wanting T.part) spec_next_number (ok_at (value_at engine.new.names) result) engine.old engine.new
        (outside (F.shelf files.old) (F.faults files.old) (T.faults tell.old) (T.loan tell.old)) (outside (F.shelf files.new) (F.faults files.new) (T.faults tell.new) (T.loan tell.new)) tell.old tell.new }
    ensures kind { IfOk result (IsNumber IsWithin) }
{
    let number = engine.read_int(files, tell)?;
    Ok(Value::Number(number))
}

// The category that comes next: a number from 0 to 15.
fn next_category<F: Files, T: Teller>(
    engine: &mut Engine,
    files: &mut F,
    tell: &mut T,
) -> Result<Value, Stop>
    requires running { engine.old.stop ≡ None }
    requires sound { Sound engine.old }
    requires owns { Owns (F.shelf files.old) engine.old }
    ensures does { Does (hears T.wanting T.heard) (hears_part T.wanting T.part) spec_next_category (ok_at (value_at engine.new.names) result) engine.old engine.new
        (outside (F.shelf files.old) (F.faults files.old) (T.faults tell.old) (T.loan tell.old)) (outside (F.shelf files.new) (F.faults files.new) (T.faults tell.new) (T.loan tell.new)) tell.old tell.new }
    ensures kind { IfOk result (IsNumber IsCategory) }
{
    let number = engine.read_int(files, tell)?;
    category_of(engine, number)
}

// The category of a number.
fn category_of(engine: &mut Engine, number: i32) -> Result<Value, Stop>
    requires running { engine.old.stop ≡ None }
    requires sound { Sound engine.old }
    ensures is { Local (spec_category_of number) (ok_at (value_at engine.old.names) result) engine.old engine.new }
    ensures kept { engine.new.stop ≡ stop_after result }
    ensures same { engine.new ≡ record engine.old { stop = engine.new.stop } }
    ensures keeps { OnOk result (Kept engine.old engine.new) }
    ensures kind { IfOk result (IsNumber IsCategory) }
{
    match u32::try_from(number) {
        Ok(code) if code <= u32::from(category::INVALID) => Ok(Value::Number(number)),
        _ => Err(engine.bare_fault(fault_code::BAD_CODE)),
    }
}

// The number of a character that comes next.
fn next_code<F: Files, T: Teller>(
    engine: &mut Engine,
    files: &mut F,
    tell: &mut T,
) -> Result<Value, Stop>
    requires running { engine.old.stop ≡ None }
    requires sound { Sound engine.old }
    requires owns { Owns (F.shelf files.old) engine.old }
    ensures does { Does (hears T.wanting T.heard) (hears_part T.wanting T.part) spec_next_code (ok_at (value_at engine.new.names) result) engine.old engine.new
        (outside (F.shelf files.old) (F.faults files.old) (T.faults tell.old) (T.loan tell.old)) (outside (F.shelf files.new) (F.faults files.new) (T.faults tell.new) (T.loan tell.new)) tell.old tell.new }
    ensures kind { IfOk result (IsNumber IsCode) }
{
    let code = engine.read_index(files, tell, Index::Character)?;
    Ok(Value::Number(code as i32))
}

// The dimension that comes next.
fn next_dimension<F: Files, T: Teller>(
    engine: &mut Engine,
    files: &mut F,
    tell: &mut T,
) -> Result<Value, Stop>
    requires running { engine.old.stop ≡ None }
    requires sound { Sound engine.old }
    requires owns { Owns (F.shelf files.old) engine.old }
    ensures does { Does (hears T.wanting T.heard) (hears_part T.wanting T.part) spec_next_dimension (ok_at (value_at engine.new.names) result) engine.old engine.new
        (outside (F.shelf files.old) (F.faults files.old) (T.faults tell.old) (T.loan tell.old)) (outside (F.shelf files.new) (F.faults files.new) (T.faults tell.new) (T.loan tell.new)) tell.old tell.new }
    ensures kind { IfOk result (IsNumber IsWithin) }
{
    let dimension = engine.read_dimen(files, tell)?;
    Ok(Value::Number(dimension.0))
}

// The glue that comes next.
fn next_glue<F: Files, T: Teller>(
    engine: &mut Engine,
    files: &mut F,
    tell: &mut T,
) -> Result<Value, Stop>
    requires running { engine.old.stop ≡ None }
    requires sound { Sound engine.old }
    requires owns { Owns (F.shelf files.old) engine.old }
    ensures does { Does (hears T.wanting T.heard) (hears_part T.wanting T.part) spec_next_glue (ok_at (value_at engine.new.names) result) engine.old engine.new
        (outside (F.shelf files.old) (F.faults files.old) (T.faults tell.old) (T.loan tell.old)) (outside (F.shelf files.new) (F.faults files.new) (T.faults tell.new) (T.loan tell.new)) tell.old tell.new }
    ensures kind { IfOk result (IsGlue) }
{
    let glue = engine.read_glue(files, tell)?;
    Ok(Value::Glue(glue))
}

// The list of tokens that comes next, behind spaces and `\relax`: a group, or that of a register.
fn next_list<F: Files, T: Teller>(
    engine: &mut Engine,
    files: &mut F,
    tell: &mut T,
) -> Result<Value, Stop>
    requires running { engine.old.stop ≡ None }
    requires sound { Sound engine.old }
    requires owns { Owns (F.shelf files.old) engine.old }
    ensures does { Does (hears T.wanting T.heard) (hears_part T.wanting T.part) spec_next_list (ok_at (value_at engine.new.names) result) engine.old engine.new
        (outside (F.shelf files.old) (F.faults files.old) (T.faults tell.old) (T.loan tell.old)) (outside (F.shelf files.new) (F.faults files.new) (T.faults tell.new) (T.loan tell.new)) tell.old tell.new }
    ensures kind { IfOk result IsList }
    ensures within { IfOk result (ValueWithin (length engine.new.names)) }
{
    let first = first_behind(engine, files, tell, Filler::SpacesAndRelax)?;
    list_by(engine, files, tell, first)
}

// The list that a token begins.
fn list_by<F: Files, T: Teller>(
    engine: &mut Engine,
    files: &mut F,
    tell: &mut T,
    first: Option<Looked>,
) -> Result<Value, Stop>
    requires running { engine.old.stop ≡ None }
    requires sound { Sound engine.old }
    requires owns { Owns (F.shelf files.old) engine.old }
    requires first { OptionWithin (LookedWithin (length engine.old.names)) first }
    ensures does { Does (hears T.wanting T.heard) (hears_part T.wanting T.part) (spec_list_by (option_map (looked_at engine.old.names) first)) (ok_at (value_at engine.new.names) result) engine.old engine.new
        (outside (F.shelf files.old) (F.faults files.old) (T.faults tell.old) (T.loan tell.old)) (outside (F.shelf files.new) (F.faults files.new) (T.faults tell.new) (T.loan tell.new)) tell.old tell.new }
    ensures kind { IfOk result IsList }
    ensures within { IfOk result (ValueWithin (length engine.new.names)) }
{
    let start = list_start(engine, first)?;
    list_from(engine, files, tell, start)
}

/// Where a list comes from, by the token that begins it.
///
/// # Errors
///
/// `Tex` with fault 4 where no token comes, and with fault 22 where one comes that begins no list. `NoMemory` where memory was
/// refused.
pub fn list_start(engine: &mut Engine, first: Option<Looked>) -> Result<ListStart, Stop>
    requires running { engine.old.stop ≡ None }
    requires sound { Sound engine.old }
    requires first { OptionWithin (LookedWithin (length engine.old.names)) first }
    ensures starts { Local (spec_list_start (option_map (looked_at engine.old.names) first)) result engine.old engine.new }
    ensures kept { engine.new.stop ≡ stop_after result }
    ensures is { engine.new ≡ record engine.old { stop = engine.new.stop } }
    ensures keeps { OnOk result (Kept engine.old engine.new) }
    ensures list { IfOk result StartsList }
{
    let Some(looked) = first else {
        return Err(engine.bare_fault(fault_code::FILE_ENDED));
    };
    let meaning = match engine.means(looked.counts) {
        Ok(meaning) => meaning,
        Err(_) => return Err(engine.no_memory()),
    };
    match begins_list(&meaning) {
        Some(start) => Ok(start),
        None => Err(engine.bare_fault(fault_code::MISSING_BRACE)),
    }
}

// Where a list comes from, by a meaning, if it begins one.
fn begins_list(meaning: &Meaning) -> Option<ListStart>
    ensures is { (texts : Table) → result ≡ spec_begins_list (meaning_at texts meaning.now) }
    ensures list { IfSome result StartsList }
{
    match meaning {
        Meaning::Char(_, category) => group_list(*category),
        Meaning::Builtin(_) => register_list(target_of(meaning)),
        Meaning::Quantity(_) => register_list(target_of(meaning)),
        Meaning::Undefined | Meaning::Macro(_) | Meaning::Number(_) | Meaning::Constructor(_) => {
            None
        }
    }
}

// Where a list comes from, by the category of a character.
fn group_list(category: u8) -> Option<ListStart>
    ensures is { result ≡ (if category == BEGIN_GROUP then Some ListStart.Group else None) }
    ensures list { IfSome result StartsList }
{
    if category == category::BEGIN_GROUP {
        Some(ListStart::Group)
    } else {
        None
    }
}

// Where a list comes from, by what is assigned to, if that is a list.
fn register_list(target: Option<Target>) -> Option<ListStart>
    ensures is { result ≡ spec_register_list target }
    ensures list { IfSome result StartsList }
{
    let target = target?;
    if is_list(variable_of(target)) {
        Some(ListStart::Register(target))
    } else {
        None
    }
}

// The list behind its start.
fn list_from<F: Files, T: Teller>(
    engine: &mut Engine,
    files: &mut F,
    tell: &mut T,
    start: ListStart,
) -> Result<Value, Stop>
    requires running { engine.old.stop ≡ None }
    requires sound { Sound engine.old }
    requires owns { Owns (F.shelf files.old) engine.old }
    requires list { StartsList start }
    ensures does { Does (hears T.wanting T.heard) (hears_part T.wanting T.part) (spec_list_from start) (ok_at (value_at engine.new.names) result) engine.old engine.new
        (outside (F.shelf files.old) (F.faults files.old) (T.faults tell.old) (T.loan tell.old)) (outside (F.shelf files.new) (F.faults files.new) (T.faults tell.new) (T.loan tell.new)) tell.old tell.new }
    ensures kind { IfOk result IsList }
    ensures within { IfOk result (ValueWithin (length engine.new.names)) }
{
    match start {
        ListStart::Group => absorbed_list(engine, files, tell),
        ListStart::Register(target) => copied_list(engine, files, tell, target),
    }
}

// The list of a group.
fn absorbed_list<F: Files, T: Teller>(
    engine: &mut Engine,
    files: &mut F,
    tell: &mut T,
) -> Result<Value, Stop>
    requires running { engine.old.stop ≡ None }
    requires sound { Sound engine.old }
    requires owns { Owns (F.shelf files.old) engine.old }
    ensures does { Does (hears T.wanting T.heard) (hears_part T.wanting T.part) spec_absorbed_list (ok_at (value_at engine.new.names) result) engine.old engine.new
        (outside (F.shelf files.old) (F.faults files.old) (T.faults tell.old) (T.loan tell.old)) (outside (F.shelf files.new) (F.faults files.new) (T.faults tell.new) (T.loan tell.new)) tell.old tell.new }
    ensures kind { IfOk result IsList }
    ensures within { IfOk result (ValueWithin (length engine.new.names)) }
{
    let list = engine.absorb(files, tell, false)?;
    Ok(Value::List(list))
}

// The list of a register.
fn copied_list<F: Files, T: Teller>(
    engine: &mut Engine,
    files: &mut F,
    tell: &mut T,
    target: Target,
) -> Result<Value, Stop>
    requires running { engine.old.stop ≡ None }
    requires sound { Sound engine.old }
    requires owns { Owns (F.shelf files.old) engine.old }
    requires list { is_list_variable (spec_variable_of target) ≡ true }
    ensures does { Does (hears T.wanting T.heard) (hears_part T.wanting T.part) (spec_copied_list target) (ok_at (value_at engine.new.names) result) engine.old engine.new
        (outside (F.shelf files.old) (F.faults files.old) (T.faults tell.old) (T.loan tell.old)) (outside (F.shelf files.new) (F.faults files.new) (T.faults tell.new) (T.loan tell.new)) tell.old tell.new }
    ensures kind { IfOk result IsList }
    ensures within { IfOk result (ValueWithin (length engine.new.names)) }
{
    let key = target_key(engine, files, tell, target)?;
    match engine.value(&key) {
        Ok(value) => Ok(value),
        Err(_) => Err(engine.no_memory()),
    }
}
