//! What a value is assigned to.

ghost use Rattle.std.specs.Prelude.{◌≡◌, ◌≤◌, length, None, IfOk, IfSome};
ghost use Rattle.texml_scope.specs.Shown.{KeyCode};
ghost use Rattle.texml_scope.specs.Numbers.{key_at, meaning_at, KeyWithin};
ghost use Rattle.texml_token.specs.Numbers.{Table};
ghost use Rattle.texml_expand.specs.VariableCodes.{key_by};
ghost use Rattle.texml_expand.specs.Contract.{outside};
ghost use Rattle.texml_expand.specs.Hearing.{hears, hears_part};
ghost use Rattle.texml_expand.specs.Held.{Sound, ok_at, Owns};
ghost use Rattle.texml_assign.specs.Doing.{Does};
ghost use Rattle.texml_assign.specs.Targets.{variable_in, register_of as spec_register_of, target_of as spec_target_of, variable_of as spec_variable_of, target_key as spec_target_key, is_counted, is_list as spec_is_list};
ghost use Rattle.texml_assign.specs.TargetCodes.{IsKeyOf};

use texml_base::Files;
use texml_expand::{Engine, Stop, Variable, variable_at};
use texml_scope::{Key, Meaning};
use texml_watch::Teller;

/// Registers of a kind.
#[derive(Clone, Copy, Debug, PartialEq, Eq)]
pub enum Registers {
    Count,
    Dimen,
    Skip,
    Toks,
}

/// What a value is assigned to: a variable, whose index is read, or a register that has a name.
#[derive(Clone, Copy, Debug, PartialEq, Eq)]
pub enum Target {
    Behind(Variable),
    Named(Registers, u16),
}

/// The register of this number.
pub fn register_key(registers: Registers, number: u16) -> Key
    ensures { result ≡ key_by (variable_in registers) number }
{
    match registers {
        Registers::Count => Key::Count(number),
        Registers::Dimen => Key::Dimen(number),
        Registers::Skip => Key::Skip(number),
        Registers::Toks => Key::Toks(number),
    }
}

/// The register that a name stands for.
pub fn register_of(key: Key) -> Option<Target>
    ensures { (texts : Table) → result ≡ spec_register_of (key_at texts key) }
{
    match key {
        Key::Count(number) => Some(Target::Named(Registers::Count, number)),
        Key::Dimen(number) => Some(Target::Named(Registers::Dimen, number)),
        Key::Skip(number) => Some(Target::Named(Registers::Skip, number)),
        Key::Toks(number) => Some(Target::Named(Registers::Toks, number)),
        _ => None,
    }
}

/// What a meaning lets assign to, if it does.
pub fn target_of(meaning: &Meaning) -> Option<Target>
    ensures { (texts : Table) → result ≡ spec_target_of (meaning_at texts meaning.now) }
{
    match meaning {
        Meaning::Builtin(place) => match variable_at(*place) {
            Some(variable) => Some(Target::Behind(variable)),
            None => None,
        },
        Meaning::Quantity(key) => register_of(*key),
        _ => None,
    }
}

/// The variable that is assigned to.
pub fn variable_of(target: Target) -> Variable
    ensures { result ≡ spec_variable_of target }
{
    match target {
        Target::Behind(variable) => variable,
        Target::Named(Registers::Count, _) => Variable::Count,
        Target::Named(Registers::Dimen, _) => Variable::Dimen,
        Target::Named(Registers::Skip, _) => Variable::Skip,
        Target::Named(Registers::Toks, _) => Variable::Toks,
    }
}

/// Whether the values of a variable can be counted with.
pub fn is_counted(variable: Variable) -> bool
    ensures { result ≡ is_counted variable }
{
    matches!(
        variable,
        Variable::EscapeChar
            | Variable::EndLineChar
            | Variable::Count
            | Variable::Dimen
            | Variable::Skip
    )
}

/// Whether the values of a variable are lists of tokens.
pub fn is_list(variable: Variable) -> bool
    ensures { result ≡ spec_is_list variable }
{
    matches!(variable, Variable::Toks)
}

/// The key that is assigned to, behind its index where it has no name.
///
/// # Errors
///
/// Those of `Engine::read_index`.
pub fn target_key<F: Files, T: Teller>(
    engine: &mut Engine,
    files: &mut F,
    tell: &mut T,
    target: Target,
) -> Result<Key, Stop>
    requires running { engine.old.stop ≡ None }
    requires sound { Sound engine.old }
    requires owns { Owns (F.shelf files.old) engine.old }
    ensures does { Does (hears T.wanting T.heard) (hears_part T.wanting T.part) (spec_target_key target) (ok_at (key_at engine.new.names) result) engine.old engine.new
        (outside (F.shelf files.old) (F.faults files.old) (T.faults tell.old) (T.loan tell.old)) (outside (F.shelf files.new) (F.faults files.new) (T.faults tell.new) (T.loan tell.new)) tell.old tell.new }
    ensures within { IfOk result (KeyWithin (length engine.new.names)) }
    ensures key { IfOk result (IsKeyOf (spec_variable_of target)) }
{
    match target {
        Target::Behind(variable) => {
            let key = engine.read_variable(files, tell, variable)?;
            Ok(key)
        }
        Target::Named(registers, number) => Ok(register_key(registers, number)),
    }
}
