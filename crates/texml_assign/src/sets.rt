//! What commands change.

ghost use Rattle.std.specs.Prelude.{◌≡◌, ◌≤◌, ◌+◌, length, false, None, Some, IfErr, OnOk, OnErr};
ghost use Rattle.texml_base.specs.Rising.{add_up};
ghost use Rattle.texml_token.specs.Numbers.{token_at, TokenWithin};
ghost use Rattle.texml_scope.specs.Groups.{begin_group as spec_begin_group, keep_after};
ghost use Rattle.texml_scope.specs.World.{MaySet};
ghost use Rattle.texml_scope.specs.Shown.{world_of, saves, first_of, RoseByChanges};
ghost use Rattle.texml_scope.specs.declared.values.ValueOf.TheVariants.{Means};
ghost use Rattle.texml_scope.specs.Numbers.{key_at, meaning_at, value_at, kind_at, KeyWithin, KindWithin, MeaningWithin, ValueWithin};
ghost use Rattle.texml_expand.specs.State.{change};
ghost use Rattle.texml_expand.specs.Expand.{back};
ghost use Rattle.texml_expand.specs.Contract.{stop_after, Local};
ghost use Rattle.texml_expand.specs.Held.{Sound, Kept, SameFiles, Puts, Progress};
ghost use Rattle.texml_assign.specs.Sets.{set as spec_set, assign as spec_assign, begin_kind, end_kind, end_code as spec_end_code, read_after as spec_read_after, put_kept as spec_put_kept};
ghost use Rattle.texml_assign.specs.Setting.{set_by};

use std::alloc::AllocError;
use texml_base::Steps;
use texml_expand::{Engine, Stop};
use texml_scope::{GroupKind, Key, Meaning, Scope, ScopeFault, Value};
use texml_token::{Token, fault_code};

/// Gives a name or an active character a meaning: in the innermost group, or where it is global in all groups and outside
/// them.
///
/// # Errors
///
/// `NoMemory` where memory was refused.
pub fn assign(engine: &mut Engine, global: bool, key: Key, meaning: Meaning) -> Result<(), Stop>
    requires running { engine.old.stop ≡ None }
    requires sound { Sound engine.old }
    requires key { KeyWithin (length engine.old.names) key }
    requires meaning { MeaningWithin (length engine.old.names) meaning }
    requires may { MaySet key (Means meaning) }
    ensures sets { Local (change (spec_assign global (key_at engine.old.names key) (meaning_at engine.old.names meaning))) result engine.old engine.new }
    ensures kept { engine.new.stop ≡ stop_after result }
    ensures keeps { OnOk result (Kept engine.old engine.new) }
    ensures advances { Progress engine.old engine.new }
    ensures step { OnOk result (engine.new.writes ≡ add_up engine.old.writes 1) }
    ensures no_step { OnErr result (engine.new.writes ≡ engine.old.writes) }
    ensures files { SameFiles engine.old engine.new }
    ensures puts { OnOk result (Puts 0 engine.old engine.new) }
{
    set(engine, global, key, Value::Means(meaning))
}

/// Gives a key a value of its kind: in the innermost group, or where it is global in all groups and outside them.
///
/// # Errors
///
/// `NoMemory` where memory was refused.
pub fn set(engine: &mut Engine, global: bool, key: Key, value: Value) -> Result<(), Stop>
    requires running { engine.old.stop ≡ None }
    requires sound { Sound engine.old }
    requires key { KeyWithin (length engine.old.names) key }
    requires value { ValueWithin (length engine.old.names) value }
    requires may { MaySet key value }
    ensures sets { Local (change (spec_set global (key_at engine.old.names key) (value_at engine.old.names value))) result engine.old engine.new }
    ensures kept { engine.new.stop ≡ stop_after result }
    ensures keeps { OnOk result (Kept engine.old engine.new) }
    ensures advances { Progress engine.old engine.new }
    ensures step { OnOk result (engine.new.writes ≡ add_up engine.old.writes 1) }
    ensures no_step { OnErr result (engine.new.writes ≡ engine.old.writes) }
    ensures files { SameFiles engine.old engine.new }
    ensures puts { OnOk result (Puts 0 engine.old engine.new) }
{
    let mut steps = Steps::new();
    let set = set_value(engine.scope(), global, key, value, &mut steps);
    engine.wrote(&steps);
    match set {
        Ok(()) => Ok(()),
        Err(_) => Err(engine.no_memory()),
    }
}

// Gives a key a value, in the innermost group or everywhere.
fn set_value(
    scope: &mut Scope,
    global: bool,
    key: Key,
    value: Value,
    steps: &mut Steps,
) -> Result<(), AllocError>
    requires { MaySet key value }
    ensures ok { OnOk result (world_of scope.new ≡ set_by global key value (world_of scope.old)) }
    ensures err { OnErr result (scope.new ≡ scope.old) }
    ensures step { OnOk result (steps.new ≡ add_up steps.old 1) }
    ensures no_step { OnErr result (steps.new ≡ steps.old) }
{
    if global {
        return scope.set_global(key, value, steps);
    }
    scope.set(key, value, steps)
}

/// Begins a group of this kind.
///
/// # Errors
///
/// `NoMemory` where memory was refused.
pub fn begin_group(engine: &mut Engine, kind: GroupKind) -> Result<(), Stop>
    requires running { engine.old.stop ≡ None }
    requires sound { Sound engine.old }
    requires kind { KindWithin (length engine.old.names) kind }
    ensures begins { Local (begin_kind (kind_at engine.old.names kind)) result engine.old engine.new }
    ensures kept { engine.new.stop ≡ stop_after result }
    ensures keeps { OnOk result (Kept engine.old engine.new) }
    ensures advances { Progress engine.old engine.new }
    ensures no_step { engine.new.writes ≡ engine.old.writes }
    ensures files { SameFiles engine.old engine.new }
    ensures puts { OnOk result (Puts 0 engine.old engine.new) }
{
    match engine.scope().begin(kind) {
        Ok(()) => Ok(()),
        Err(_) => Err(engine.no_memory()),
    }
}

/// Ends the innermost group, which is of this kind, and puts the tokens that were kept for after it before what is to be
/// read.
///
/// # Errors
///
/// `Tex` with fault 17 where no group is open, and with fault 16 where the innermost group is of another kind. `NoMemory`
/// where memory was refused.
pub fn end_group(engine: &mut Engine, kind: GroupKind) -> Result<(), Stop>
    requires running { engine.old.stop ≡ None }
    requires sound { Sound engine.old }
    requires kind { KindWithin (length engine.old.names) kind }
    ensures ends { Local (end_kind (kind_at engine.old.names kind)) result engine.old engine.new }
    ensures kept { engine.new.stop ≡ stop_after result }
    ensures keeps { OnOk result (Kept engine.old engine.new) }
    ensures advances { Progress engine.old engine.new }
    ensures few { engine.new.writes ≤ engine.old.writes + first_of (saves engine.old.scope) }
    ensures many { RoseByChanges (world_of engine.old.scope) (world_of engine.new.scope) engine.old.writes engine.new.writes }
    ensures files { SameFiles engine.old engine.new }
    ensures puts { OnOk result (Puts 0 engine.old engine.new) }
{
    let mut steps = Steps::new();
    let ended = engine.scope().end(kind, &mut steps);
    engine.wrote(&steps);
    match ended {
        Ok(after) => engine.put(&after),
        Err(fault) => Err(engine.bare_fault(end_code(fault))),
    }
}

// The number of the fault of a group that can't end.
fn end_code(fault: ScopeFault) -> u8
    ensures { result ≡ spec_end_code fault }
{
    match fault {
        ScopeFault::NoGroup => fault_code::NO_GROUP,
        ScopeFault::WrongGroup(_) => fault_code::GROUP_MISMATCH,
    }
}

/// Keeps a token for after the innermost group; outside all groups it is kept for nobody.
///
/// # Errors
///
/// `NoMemory` where memory was refused.
pub fn read_after(engine: &mut Engine, token: Token) -> Result<(), Stop>
    requires running { engine.old.stop ≡ None }
    requires sound { Sound engine.old }
    requires token { TokenWithin (length engine.old.names) token }
    ensures keeps_token { Local (change (spec_read_after (token_at engine.old.names token))) result engine.old engine.new }
    ensures kept { engine.new.stop ≡ stop_after result }
    ensures keeps { OnOk result (Kept engine.old engine.new) }
    ensures advances { Progress engine.old engine.new }
    ensures no_step { engine.new.writes ≡ engine.old.writes }
    ensures files { SameFiles engine.old engine.new }
    ensures puts { OnOk result (Puts 1 engine.old engine.new) }
{
    match engine.scope().after_group(token) {
        Ok(()) => Ok(()),
        Err(_) => Err(engine.no_memory()),
    }
}

/// Puts a token before what is to be read.
///
/// # Errors
///
/// `NoMemory` where memory was refused.
pub fn put_back(engine: &mut Engine, token: Token) -> Result<(), Stop>
    requires running { engine.old.stop ≡ None }
    requires sound { Sound engine.old }
    requires token { TokenWithin (length engine.old.names) token }
    ensures changes { Local (change (back (token_at engine.old.names token) false)) result engine.old engine.new }
    ensures kept { engine.new.stop ≡ stop_after result }
    ensures keeps { OnOk result (Kept engine.old engine.new) }
    ensures advances { Progress engine.old engine.new }
    ensures no_step { engine.new.writes ≡ engine.old.writes }
    ensures files { SameFiles engine.old engine.new }
    ensures puts { OnOk result (Puts 1 engine.old engine.new) }
{
    engine.back(token, false)
}

/// Puts the token that is kept for after an assignment, if there is one, before what is to be read.
///
/// # Errors
///
/// `NoMemory` where memory was refused.
pub fn put_kept(engine: &mut Engine) -> Result<(), Stop>
    requires running { engine.old.stop ≡ None }
    requires sound { Sound engine.old }
    ensures changes { Local (change spec_put_kept) result engine.old engine.new }
    ensures kept { engine.new.stop ≡ stop_after result }
    ensures keeps { OnOk result (Kept engine.old engine.new) }
    ensures advances { Progress engine.old engine.new }
    ensures no_step { engine.new.writes ≡ engine.old.writes }
    ensures files { SameFiles engine.old engine.new }
    ensures puts { OnOk result (Puts 0 engine.old engine.new) }
{
    match engine.kept() {
        None => Ok(()),
        Some(token) => {
            engine.keep(None);
            engine.back(token, false)
        }
    }
}
