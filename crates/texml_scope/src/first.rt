//! The scope that a run starts with.

ghost use Rattle.std.specs.Prelude.{◌≡◌, ◌≤◌, ◌<◌, ℕ, length, fold, map, IfOk, OnOk, IsTrue, nat_lt};
ghost use Rattle.std.specs.List.{All, list_all};
ghost use Rattle.std.specs.Char.{IsScalar};
ghost use Rattle.texml_token.specs.Numbers.{Numbered, Extends, with_text};
ghost use Rattle.texml_scope.specs.Shown.{world_of};
ghost use Rattle.texml_scope.specs.Numbers.{world_at, WorldCovered};
ghost use Rattle.texml_scope.specs.Builtins.{first_world, first_names, with_builtin, with_builtin_names, with_control, row_of};
ghost use Rattle.texml_scope.specs.declared.builtins.TheConstants.{BUILTINS};

use crate::builtins::{BUILTINS, Builtin, is_built};
use crate::scope::Scope;
use crate::values::{Key, Meaning, Value};
use std::alloc::{AllocError, Global};
use texml_base::Steps;
use texml_token::{Line, Names};

/// The scope that a run starts with: each builtin that is built has its control names, and nothing else means anything. The
/// table then has these names too, and no others are new. The steps that are taken count for no run.
///
/// # Errors
///
/// `AllocError` where there is no memory. The table of names may have grown then.
pub fn first_scope(alloc: Global, names: &mut Names) -> Result<Scope, AllocError>
    ensures world { IfOk result (λ scope. world_at names.new (world_of scope) ≡ first_world) }
    ensures names { OnOk result (names.new ≡ first_names names.old) }
    ensures covered { IfOk result (λ scope. WorldCovered (length names.new) (world_of scope)) }
    ensures grows { Extends names.old names.new }
    ensures numbered { OnOk result (Numbered names.new) }
{
    let mut steps = Steps::new();
    let mut scope = Scope::new(alloc);
    enter_all(alloc, &mut scope, names, &BUILTINS, &mut steps)?;
    Ok(scope)
}

// Gives each of these builtins that is built its control names.
fn enter_all(
    alloc: Global,
    scope: &mut Scope,
    names: &mut Names,
    builtins: &[Builtin],
    steps: &mut Steps,
) -> Result<(), AllocError>
    requires covered { WorldCovered (length names.old) (world_of scope.old) }
    requires places { IsTrue (list_all (λ b. nat_lt b.0 (length BUILTINS)) builtins.now) }
    ensures world { OnOk result (world_at names.new (world_of scope.new) ≡ fold with_builtin (world_at names.old (world_of scope.old)) (map row_of builtins.now)) }
    ensures names { OnOk result (names.new ≡ fold with_builtin_names names.old (map row_of builtins.now)) }
    ensures covered { OnOk result (WorldCovered (length names.new) (world_of scope.new)) }
    ensures grows { Extends names.old names.new }
    ensures numbered { OnOk result (Numbered names.new) }
{
    let _given = names.given();
    for builtin in builtins {
        enter(alloc, scope, names, builtin, steps)?;
    }
    Ok(())
}

// Gives a builtin its control names, if it is built.
fn enter(
    alloc: Global,
    scope: &mut Scope,
    names: &mut Names,
    builtin: &Builtin,
    steps: &mut Steps,
) -> Result<(), AllocError>
    requires covered { WorldCovered (length names.old) (world_of scope.old) }
    requires place { builtin.now.0 < length BUILTINS }
    ensures world { OnOk result (world_at names.new (world_of scope.new) ≡ with_builtin (world_at names.old (world_of scope.old)) (row_of builtin.now)) }
    ensures names { OnOk result (names.new ≡ with_builtin_names names.old (row_of builtin.now)) }
    ensures covered { OnOk result (WorldCovered (length names.new) (world_of scope.new)) }
    ensures grows { Extends names.old names.new }
    ensures numbered { OnOk result (Numbered names.new) }
{
    let _given = names.given();
    if !is_built(builtin) {
        return Ok(());
    }
    if builtin.2.is_empty() {
        return enter_name(alloc, scope, names, builtin.1, builtin.0, steps);
    }
    enter_names(alloc, scope, names, builtin.2, builtin.0, steps)
}

// Sets these control names to the builtin of this place.
fn enter_names(
    alloc: Global,
    scope: &mut Scope,
    names: &mut Names,
    controls: &[&str],
    place: u16,
    steps: &mut Steps,
) -> Result<(), AllocError>
    requires covered { WorldCovered (length names.old) (world_of scope.old) }
    requires place { place < length BUILTINS }
    ensures world { OnOk result (world_at names.new (world_of scope.new) ≡ fold (with_control place) (world_at names.old (world_of scope.old)) (map (λ c. c.now) controls.now)) }
    ensures names { OnOk result (names.new ≡ fold with_text names.old (map (λ c. c.now) controls.now)) }
    ensures covered { OnOk result (WorldCovered (length names.new) (world_of scope.new)) }
    ensures grows { Extends names.old names.new }
    ensures numbered { OnOk result (Numbered names.new) }
{
    let _given = names.given();
    for control in controls {
        enter_name(alloc, scope, names, control, place, steps)?;
    }
    Ok(())
}

// Sets this control name to the builtin of this place.
fn enter_name(
    alloc: Global,
    scope: &mut Scope,
    names: &mut Names,
    control: &str,
    place: u16,
    steps: &mut Steps,
) -> Result<(), AllocError>
    requires covered { WorldCovered (length names.old) (world_of scope.old) }
    requires place { place < length BUILTINS }
    ensures world { OnOk result (world_at names.new (world_of scope.new) ≡ with_control place (world_at names.old (world_of scope.old)) control.now) }
    ensures names { OnOk result (names.new ≡ with_text names.old control.now) }
    ensures covered { OnOk result (WorldCovered (length names.new) (world_of scope.new)) }
    ensures grows { Extends names.old names.new }
    ensures numbered { OnOk result (Numbered names.new) }
{
    let text = text_of(alloc, control)?;
    let name = names.intern(&text)?;
    let key = Key::Name(name);
    scope.set(key, Value::Means(Meaning::Builtin(place)), steps)
}

// The characters of an ASCII text.
fn text_of(alloc: Global, ascii: &str) -> Result<Line, AllocError>
    ensures value { IfOk result (λ text. text ≡ ascii.now) }
    ensures scalars { IfOk result (All IsScalar) }
{
    let mut text = Line::new(alloc);
    for byte in ascii.as_bytes() {
        text.push(u32::from(*byte))?;
    }
    Ok(text)
}
