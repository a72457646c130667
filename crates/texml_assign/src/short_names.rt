//! Names for characters and registers.

ghost use Rattle.std.specs.Prelude.{◌≡◌, ℕ, length, None, IfOk};
ghost use Rattle.texml_token.specs.Numbers.{Table};
ghost use Rattle.texml_scope.specs.Numbers.{MeaningCode, key_at, meaning_at, KeyWithin, MeaningWithin};
ghost use Rattle.texml_scope.specs.World.{MaySet};
ghost use Rattle.texml_scope.specs.declared.values.ValueOf.TheVariants.{Means};
ghost use Rattle.texml_expand.specs.Contract.{outside};
ghost use Rattle.texml_expand.specs.Hearing.{hears, hears_part};
ghost use Rattle.texml_expand.specs.Held.{Sound, Owns};
ghost use Rattle.texml_expand.specs.VariableCodes.{HasNumber};
ghost use Rattle.texml_assign.specs.Doing.{Does};
ghost use Rattle.texml_assign.specs.ShortNames.{short_index as spec_short_index, short_meaning as spec_short_meaning, short_number as spec_short_number, short_equals as spec_short_equals, short_key as spec_short_key, short_name as spec_short_name};

use crate::fillers::optional_equals;
use crate::operands::next_key;
use crate::sets::assign;
use crate::table::ShortFor;
use crate::targets::register_key;
use texml_base::Files;
use texml_expand::{Engine, Index, Stop};
use texml_scope::builtins::RELAX;
use texml_scope::{Key, Meaning};
use texml_watch::Teller;

/// Gives a name a character or a register: the name, which means `\relax` from then on, an equals sign, which may be missing, and
/// the number.
///
/// # Errors
///
/// `Tex` with fault 18 where no name comes, with fault 11 where there is no such character or register, and the faults of
/// `Engine::read_int`. The stops of the engine.
pub fn short_name<F: Files, T: Teller>(
    engine: &mut Engine,
    files: &mut F,
    tell: &mut T,
    global: bool,
    what: ShortFor,
) -> Result<(), Stop>
    requires running { engine.old.stop ≡ None }
    requires sound { Sound engine.old }
    requires owns { Owns (F.shelf files.old) engine.old }
    ensures does { Does (hears T.wanting T.heard) (hears_part T.wanting T.part) (spec_short_name global what) result engine.old engine.new
        (outside (F.shelf files.old) (F.faults files.old) (T.faults tell.old) (T.loan tell.old)) (outside (F.shelf files.new) (F.faults files.new) (T.faults tell.new) (T.loan tell.new)) tell.old tell.new }
{
    let key = next_key(engine, files, tell)?;
    short_key(engine, files, tell, global, what, key)
}

// Gives a name its meaning, which is that of `\relax` at first.
fn short_key<F: Files, T: Teller>(
    engine: &mut Engine,
    files: &mut F,
    tell: &mut T,
    global: bool,
    what: ShortFor,
    key: Key,
) -> Result<(), Stop>
    requires running { engine.old.stop ≡ None }
    requires sound { Sound engine.old }
    requires owns { Owns (F.shelf files.old) engine.old }
    requires key { KeyWithin (length engine.old.names) key }
    requires may { (meaning : MeaningCode) → MaySet key (Means meaning) }
    ensures does { Does (hears T.wanting T.heard) (hears_part T.wanting T.part) (spec_short_key global what (key_at engine.old.names key)) result engine.old engine.new
        (outside (F.shelf files.old) (F.faults files.old) (T.faults tell.old) (T.loan tell.old)) (outside (F.shelf files.new) (F.faults files.new) (T.faults tell.new) (T.loan tell.new)) tell.old tell.new }
{
    assign(engine, global, key, Meaning::Builtin(RELAX))?;
    short_equals(engine, files, tell, global, what, key)
}

// Gives a name its meaning, behind an equals sign, which may be missing.
fn short_equals<F: Files, T: Teller>(
    engine: &mut Engine,
    files: &mut F,
    tell: &mut T,
    global: bool,
    what: ShortFor,
    key: Key,
) -> Result<(), Stop>
    requires running { engine.old.stop ≡ None }
    requires sound { Sound engine.old }
    requires owns { Owns (F.shelf files.old) engine.old }
    requires key { KeyWithin (length engine.old.names) key }
    requires may { (meaning : MeaningCode) → MaySet key (Means meaning) }
    ensures does { Does (hears T.wanting T.heard) (hears_part T.wanting T.part) (spec_short_equals global what (key_at engine.old.names key)) result engine.old engine.new
        (outside (F.shelf files.old) (F.faults files.old) (T.faults tell.old) (T.loan tell.old)) (outside (F.shelf files.new) (F.faults files.new) (T.faults tell.new) (T.loan tell.new)) tell.old tell.new }
{
    optional_equals(engine, files, tell)?;
    short_number(engine, files, tell, global, what, key)
}

// Gives a name the meaning of the number that comes next.
fn short_number<F: Files, T: Teller>(
    engine: &mut Engine,
    files: &mut F,
    tell: &mut T,
    global: bool,
    what: ShortFor,
    key: Key,
) -> Result<(), Stop>
    requires running { engine.old.stop ≡ None }
    requires sound { Sound engine.old }
    requires owns { Owns (F.shelf files.old) engine.old }
    requires key { KeyWithin (length engine.old.names) key }
    requires may { (meaning : MeaningCode) → MaySet key (Means meaning) }
    ensures does { Does (hears T.wanting T.heard) (hears_part T.wanting T.part) (spec_short_number global what (key_at engine.old.names key)) result engine.old engine.new
        (outside (F.shelf files.old) (F.faults files.old) (T.faults tell.old) (T.loan tell.old)) (outside (F.shelf files.new) (F.faults files.new) (T.faults tell.new) (T.loan tell.new)) tell.old tell.new }
{
    let number = engine.read_index(files, tell, short_index(what))?;
    assign(engine, global, key, short_meaning(what, number))
}

// What is read for it.
fn short_index(what: ShortFor) -> Index
    ensures { result ≡ spec_short_index what }
{
    match what {
        ShortFor::Character => Index::Character,
        ShortFor::Register(_) => Index::Register,
    }
}

// What a name for the character or the register of this number means.
fn short_meaning(what: ShortFor, number: u32) -> Meaning
    requires { HasNumber (spec_short_index what) number }
    ensures is { (texts : Table) → meaning_at texts result ≡ spec_short_meaning what number }
    ensures within { (count : ℕ) → MeaningWithin count result }
{
    match what {
        ShortFor::Character => Meaning::Number(number),
        ShortFor::Register(registers) => Meaning::Quantity(register_key(registers, number as u16)),
    }
}
