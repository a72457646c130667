//! Values that are counted with.

ghost use Rattle.std.specs.Prelude.{◌≡◌, length, None, Ok, IfOk, OnOk, true, option_map};
ghost use Rattle.texml_token.specs.Numbers.{token_at, TokenWithin, OptionWithin};
ghost use Rattle.texml_fixed.specs.Arithmetic.{IsWithin};
ghost use Rattle.texml_fixed.specs.Glue.{IsGlueWithin};
ghost use Rattle.texml_scope.specs.Numbers.{key_at, KeyWithin};
ghost use Rattle.texml_expand.specs.Contract.{Local, outside, stop_after};
ghost use Rattle.texml_expand.specs.Hearing.{hears, hears_part};
ghost use Rattle.texml_expand.specs.Held.{Sound, Kept, ok_at, Owns};
ghost use Rattle.texml_assign.specs.Doing.{Does};
ghost use Rattle.texml_assign.specs.Targets.{variable_of as spec_variable_of, is_counted as spec_is_counted};
ghost use Rattle.texml_assign.specs.TargetCodes.{IsCounted, IsCountWithin, IsLike, Suits, number_by};
ghost use Rattle.texml_assign.specs.Arithmetic.{next_counted as spec_next_counted, counted as spec_counted, counted_by as spec_counted_by, counted_of as spec_counted_of, count_now as spec_count_now, as_number as spec_as_number, as_dimension as spec_as_dimension, as_glue as spec_as_glue, product as spec_product, quotient as spec_quotient, fits as spec_fits, number_sum as spec_number_sum, dimension_sum as spec_dimension_sum, sum_of_glue as spec_sum_of_glue, by_number, by_dimension, by_glue, advanced as spec_advanced, computed as spec_computed, value_from as spec_value_from, count_on as spec_count_on, count_with as spec_count_with, count_by as spec_count_by, count_target as spec_count_target, arithmetic as spec_arithmetic};

use crate::sets::set;
use crate::table::Arithmetic;
use crate::targets::{Target, is_counted, target_key, target_of, variable_of};
use texml_base::Files;
use texml_expand::{Engine, Stop};
use texml_fixed::{Glue, MAX_DIMENSION, MAX_NUMBER, NumFault, Scaled, add, over, times};
use texml_scope::{Key, Value};
use texml_token::{Token, fault_code};
use texml_watch::Teller;

// The word before a value.
const BY: &[u8] = b"by";

/// What is counted with.
#[derive(Clone, Copy, Debug, PartialEq, Eq)]
pub enum Counted {
    Number(i32),
    Dimension(Scaled),
    Glue(Glue),
}

/// Counts with the value of a variable: what is counted with, the word `by`, which may be missing, and a value. The result takes
/// the place of the old value.
///
/// # Errors
///
/// `Tex` with fault 18 where no variable comes that can be counted with, with fault 10 where the result passes its bound or
/// nothing is divided by 0, with fault 4 at the end of what is to be read, and the faults of the engine's readings. The stops of the
/// engine.
pub fn arithmetic<F: Files, T: Teller>(
    engine: &mut Engine,
    files: &mut F,
    tell: &mut T,
    global: bool,
    what: Arithmetic,
) -> Result<(), Stop>
    requires running { engine.old.stop ≡ None }
    requires sound { Sound engine.old }
    requires owns { Owns (F.shelf files.old) engine.old }
    ensures does { Does (hears T.wanting T.heard) (hears_part T.wanting T.part) (spec_arithmetic global what) result engine.old engine.new
        (outside (F.shelf files.old) (F.faults files.old) (T.faults tell.old) (T.loan tell.old)) (outside (F.shelf files.new) (F.faults files.new) (T.faults tell.new) (T.loan tell.new)) tell.old tell.new }
{
    let target = next_counted(engine, files, tell)?;
    count_target(engine, files, tell, global, what, target)
}

// Counts with what is assigned to.
fn count_target<F: Files, T: Teller>(
    engine: &mut Engine,
    files: &mut F,
    tell: &mut T,
    global: bool,
    what: Arithmetic,
    target: Target,
) -> Result<(), Stop>
    requires running { engine.old.stop ≡ None }
    requires sound { Sound engine.old }
    requires owns { Owns (F.shelf files.old) engine.old }
    requires counted { spec_is_counted (spec_variable_of target) ≡ true }
    ensures does { Does (hears T.wanting T.heard) (hears_part T.wanting T.part) (spec_count_target global what target) result engine.old engine.new
        (outside (F.shelf files.old) (F.faults files.old) (T.faults tell.old) (T.loan tell.old)) (outside (F.shelf files.new) (F.faults files.new) (T.faults tell.new) (T.loan tell.new)) tell.old tell.new }
{
    let key = target_key(engine, files, tell, target)?;
    count_by(engine, files, tell, global, what, key)
}

// Counts with the value of a key, behind the word `by`, which may be missing.
fn count_by<F: Files, T: Teller>(
    engine: &mut Engine,
    files: &mut F,
    tell: &mut T,
    global: bool,
    what: Arithmetic,
    key: Key,
) -> Result<(), Stop>
    requires running { engine.old.stop ≡ None }
    requires sound { Sound engine.old }
    requires owns { Owns (F.shelf files.old) engine.old }
    requires key { IsCounted key }
    requires within { KeyWithin (length engine.old.names) key }
    ensures does { Does (hears T.wanting T.heard) (hears_part T.wanting T.part) (spec_count_by global what (key_at engine.old.names key)) result engine.old engine.new
        (outside (F.shelf files.old) (F.faults files.old) (T.faults tell.old) (T.loan tell.old)) (outside (F.shelf files.new) (F.faults files.new) (T.faults tell.new) (T.loan tell.new)) tell.old tell.new }
{
    engine.read_keyword(files, tell, BY)?;
    count_with(engine, files, tell, global, what, key)
}

// Counts with the value of a key.
fn count_with<F: Files, T: Teller>(
    engine: &mut Engine,
    files: &mut F,
    tell: &mut T,
    global: bool,
    what: Arithmetic,
    key: Key,
) -> Result<(), Stop>
    requires running { engine.old.stop ≡ None }
    requires sound { Sound engine.old }
    requires owns { Owns (F.shelf files.old) engine.old }
    requires key { IsCounted key }
    requires within { KeyWithin (length engine.old.names) key }
    ensures does { Does (hears T.wanting T.heard) (hears_part T.wanting T.part) (spec_count_with global what (key_at engine.old.names key)) result engine.old engine.new
        (outside (F.shelf files.old) (F.faults files.old) (T.faults tell.old) (T.loan tell.old)) (outside (F.shelf files.new) (F.faults files.new) (T.faults tell.new) (T.loan tell.new)) tell.old tell.new }
{
    let old = count_now(engine, key)?;
    count_on(engine, files, tell, global, what, key, old)
}

// Counts with this value of a key.
fn count_on<F: Files, T: Teller>(
    engine: &mut Engine,
    files: &mut F,
    tell: &mut T,
    global: bool,
    what: Arithmetic,
    key: Key,
    old: Counted,
) -> Result<(), Stop>
    requires running { engine.old.stop ≡ None }
    requires sound { Sound engine.old }
    requires owns { Owns (F.shelf files.old) engine.old }
    requires key { IsCounted key }
    requires given { KeyWithin (length engine.old.names) key }
    requires suits { Suits key old }
    requires within { IsCountWithin old }
    ensures does { Does (hears T.wanting T.heard) (hears_part T.wanting T.part) (spec_count_on global what (key_at engine.old.names key) old) result engine.old engine.new
        (outside (F.shelf files.old) (F.faults files.old) (T.faults tell.old) (T.loan tell.old)) (outside (F.shelf files.new) (F.faults files.new) (T.faults tell.new) (T.loan tell.new)) tell.old tell.new }
{
    let new = computed(engine, files, tell, what, old)?;
    set(engine, global, key, value_from(new))
}

// What is counted with, which must be a variable that can be.
fn next_counted<F: Files, T: Teller>(
    engine: &mut Engine,
    files: &mut F,
    tell: &mut T,
) -> Result<Target, Stop>
    requires running { engine.old.stop ≡ None }
    requires sound { Sound engine.old }
    requires owns { Owns (F.shelf files.old) engine.old }
    ensures does { Does (hears T.wanting T.heard) (hears_part T.wanting T.part) spec_next_counted result engine.old engine.new
        (outside (F.shelf files.old) (F.faults files.old) (T.faults tell.old) (T.loan tell.old)) (outside (F.shelf files.new) (F.faults files.new) (T.faults tell.new) (T.loan tell.new)) tell.old tell.new }
    ensures counted { IfOk result (λ target. spec_is_counted (spec_variable_of target) ≡ true) }
{
    let next = engine.fetch(files, tell)?;
    counted_of(engine, next)
}

// What is counted with, by its token, which must be there.
fn counted_of(engine: &mut Engine, next: Option<Token>) -> Result<Target, Stop>
    requires running { engine.old.stop ≡ None }
    requires sound { Sound engine.old }
    requires next { OptionWithin (TokenWithin (length engine.old.names)) next }
    ensures is { Local (spec_counted_of (option_map (token_at engine.old.names) next)) result engine.old engine.new }
    ensures kept { engine.new.stop ≡ stop_after result }
    ensures same { engine.new ≡ record engine.old { stop = engine.new.stop } }
    ensures keeps { OnOk result (Kept engine.old engine.new) }
    ensures counted { IfOk result (λ target. spec_is_counted (spec_variable_of target) ≡ true) }
{
    match next {
        Some(token) => counted_by(engine, token),
        None => Err(engine.bare_fault(fault_code::FILE_ENDED)),
    }
}

// What is counted with, by its token.
fn counted_by(engine: &mut Engine, token: Token) -> Result<Target, Stop>
    requires running { engine.old.stop ≡ None }
    requires sound { Sound engine.old }
    requires token { TokenWithin (length engine.old.names) token }
    ensures is { Local (spec_counted_by (token_at engine.old.names token)) result engine.old engine.new }
    ensures kept { engine.new.stop ≡ stop_after result }
    ensures same { engine.new ≡ record engine.old { stop = engine.new.stop } }
    ensures keeps { OnOk result (Kept engine.old engine.new) }
    ensures counted { IfOk result (λ target. spec_is_counted (spec_variable_of target) ≡ true) }
{
    let meaning = match engine.means(token) {
        Ok(meaning) => meaning,
        Err(_) => return Err(engine.no_memory()),
    };
    countable(engine, target_of(&meaning))
}

// What is counted with, which must be a variable that can be.
fn countable(engine: &mut Engine, target: Option<Target>) -> Result<Target, Stop>
    requires running { engine.old.stop ≡ None }
    requires sound { Sound engine.old }
    ensures is { Local (spec_counted target) result engine.old engine.new }
    ensures kept { engine.new.stop ≡ stop_after result }
    ensures same { engine.new ≡ record engine.old { stop = engine.new.stop } }
    ensures keeps { OnOk result (Kept engine.old engine.new) }
    ensures counted { IfOk result (λ target. spec_is_counted (spec_variable_of target) ≡ true) }
{
    let Some(target) = target else {
        return Err(engine.bare_fault(fault_code::MISPLACED));
    };
    if !is_counted(variable_of(target)) {
        return Err(engine.bare_fault(fault_code::MISPLACED));
    }
    Ok(target)
}

// The value of a variable that can be counted with.
fn count_now(engine: &mut Engine, key: Key) -> Result<Counted, Stop>
    requires running { engine.old.stop ≡ None }
    requires sound { Sound engine.old }
    requires key { IsCounted key }
    requires within { KeyWithin (length engine.old.names) key }
    ensures is { Local (spec_count_now (key_at engine.old.names key)) result engine.old engine.new }
    ensures kept { engine.new.stop ≡ stop_after result }
    ensures same { engine.new ≡ record engine.old { stop = engine.new.stop } }
    ensures keeps { OnOk result (Kept engine.old engine.new) }
    ensures suits { IfOk result (Suits key) }
    ensures within { IfOk result IsCountWithin }
{
    let value = match engine.value(&key) {
        Ok(value) => value,
        Err(_) => return Err(engine.no_memory()),
    };
    match value {
        Value::Number(number) => Ok(counted_number(key, number)),
        Value::Glue(glue) => Ok(Counted::Glue(glue)),
        _ => unreachable!(),
    }
}

// What the number of a key is counted as.
fn counted_number(key: Key, number: i32) -> Counted
    ensures { result ≡ number_by key number }
{
    match key {
        Key::Dimen(_) => Counted::Dimension(Scaled(number)),
        _ => Counted::Number(number),
    }
}

// A new value, by what is counted with.
fn computed<F: Files, T: Teller>(
    engine: &mut Engine,
    files: &mut F,
    tell: &mut T,
    what: Arithmetic,
    old: Counted,
) -> Result<Counted, Stop>
    requires running { engine.old.stop ≡ None }
    requires sound { Sound engine.old }
    requires owns { Owns (F.shelf files.old) engine.old }
    requires within { IsCountWithin old }
    ensures does { Does (hears T.wanting T.heard) (hears_part T.wanting T.part) (spec_computed what old) result engine.old engine.new
        (outside (F.shelf files.old) (F.faults files.old) (T.faults tell.old) (T.loan tell.old)) (outside (F.shelf files.new) (F.faults files.new) (T.faults tell.new) (T.loan tell.new)) tell.old tell.new }
    ensures like { IfOk result (IsLike old) }
{
    match what {
        Arithmetic::Advance => advanced(engine, files, tell, old),
        Arithmetic::Multiply => multiplied(engine, files, tell, old),
        Arithmetic::Divide => shared(engine, files, tell, old),
    }
}

// The product with the number that comes next.
fn multiplied<F: Files, T: Teller>(
    engine: &mut Engine,
    files: &mut F,
    tell: &mut T,
    old: Counted,
) -> Result<Counted, Stop>
    requires running { engine.old.stop ≡ None }
    requires sound { Sound engine.old }
    requires owns { Owns (F.shelf files.old) engine.old }
    requires within { IsCountWithin old }
    ensures does { Does (hears T.wanting T.heard) (hears_part T.wanting T.part) (by_number (spec_product old)) result engine.old engine.new
        (outside (F.shelf files.old) (F.faults files.old) (T.faults tell.old) (T.loan tell.old)) (outside (F.shelf files.new) (F.faults files.new) (T.faults tell.new) (T.loan tell.new)) tell.old tell.new }
    ensures like { IfOk result (IsLike old) }
{
    let number = engine.read_int(files, tell)?;
    fits(engine, product(old, number))
}

// The quotient by the number that comes next.
fn shared<F: Files, T: Teller>(
    engine: &mut Engine,
    files: &mut F,
    tell: &mut T,
    old: Counted,
) -> Result<Counted, Stop>
    requires running { engine.old.stop ≡ None }
    requires sound { Sound engine.old }
    requires owns { Owns (F.shelf files.old) engine.old }
    requires within { IsCountWithin old }
    ensures does { Does (hears T.wanting T.heard) (hears_part T.wanting T.part) (by_number (spec_quotient old)) result engine.old engine.new
        (outside (F.shelf files.old) (F.faults files.old) (T.faults tell.old) (T.loan tell.old)) (outside (F.shelf files.new) (F.faults files.new) (T.faults tell.new) (T.loan tell.new)) tell.old tell.new }
    ensures like { IfOk result (IsLike old) }
{
    let number = engine.read_int(files, tell)?;
    fits(engine, quotient(old, number))
}

// The sum with what comes next.
fn advanced<F: Files, T: Teller>(
    engine: &mut Engine,
    files: &mut F,
    tell: &mut T,
    old: Counted,
) -> Result<Counted, Stop>
    requires running { engine.old.stop ≡ None }
    requires sound { Sound engine.old }
    requires owns { Owns (F.shelf files.old) engine.old }
    requires within { IsCountWithin old }
    ensures does { Does (hears T.wanting T.heard) (hears_part T.wanting T.part) (spec_advanced old) result engine.old engine.new
        (outside (F.shelf files.old) (F.faults files.old) (T.faults tell.old) (T.loan tell.old)) (outside (F.shelf files.new) (F.faults files.new) (T.faults tell.new) (T.loan tell.new)) tell.old tell.new }
    ensures like { IfOk result (IsLike old) }
{
    match old {
        Counted::Number(old) => advanced_number(engine, files, tell, old),
        Counted::Dimension(old) => advanced_dimension(engine, files, tell, old),
        Counted::Glue(old) => advanced_glue(engine, files, tell, old),
    }
}

// The sum with the number that comes next.
fn advanced_number<F: Files, T: Teller>(
    engine: &mut Engine,
    files: &mut F,
    tell: &mut T,
    old: i32,
) -> Result<Counted, Stop>
    requires running { engine.old.stop ≡ None }
    requires sound { Sound engine.old }
    requires owns { Owns (F.shelf files.old) engine.old }
    requires within { IsWithin old }
    ensures does { Does (hears T.wanting T.heard) (hears_part T.wanting T.part) (by_number (spec_number_sum old)) result engine.old engine.new
        (outside (F.shelf files.old) (F.faults files.old) (T.faults tell.old) (T.loan tell.old)) (outside (F.shelf files.new) (F.faults files.new) (T.faults tell.new) (T.loan tell.new)) tell.old tell.new }
    ensures like { IfOk result (IsLike (Counted.Number old)) }
{
    let more = engine.read_int(files, tell)?;
    fits(engine, number_sum(old, more))
}

// The sum with the dimension that comes next.
fn advanced_dimension<F: Files, T: Teller>(
    engine: &mut Engine,
    files: &mut F,
    tell: &mut T,
    old: Scaled,
) -> Result<Counted, Stop>
    requires running { engine.old.stop ≡ None }
    requires sound { Sound engine.old }
    requires owns { Owns (F.shelf files.old) engine.old }
    requires within { IsWithin old.0 }
    ensures does { Does (hears T.wanting T.heard) (hears_part T.wanting T.part) (by_dimension (spec_dimension_sum old)) result engine.old engine.new
        (outside (F.shelf files.old) (F.faults files.old) (T.faults tell.old) (T.loan tell.old)) (outside (F.shelf files.new) (F.faults files.new) (T.faults tell.new) (T.loan tell.new)) tell.old tell.new }
    ensures like { IfOk result (IsLike (Counted.Dimension old)) }
{
    let more = engine.read_dimen(files, tell)?;
    fits(engine, dimension_sum(old, more))
}

// The sum with the glue that comes next.
fn advanced_glue<F: Files, T: Teller>(
    engine: &mut Engine,
    files: &mut F,
    tell: &mut T,
    old: Glue,
) -> Result<Counted, Stop>
    requires running { engine.old.stop ≡ None }
    requires sound { Sound engine.old }
    requires owns { Owns (F.shelf files.old) engine.old }
    requires within { IsGlueWithin old }
    ensures does { Does (hears T.wanting T.heard) (hears_part T.wanting T.part) (by_glue (spec_sum_of_glue old)) result engine.old engine.new
        (outside (F.shelf files.old) (F.faults files.old) (T.faults tell.old) (T.loan tell.old)) (outside (F.shelf files.new) (F.faults files.new) (T.faults tell.new) (T.loan tell.new)) tell.old tell.new }
    ensures like { IfOk result (IsLike (Counted.Glue old)) }
{
    let more = engine.read_glue(files, tell)?;
    fits(engine, sum_of_glue(old, more))
}

// A result, which must be within its bound.
fn fits(engine: &mut Engine, sum: Result<Counted, NumFault>) -> Result<Counted, Stop>
    requires running { engine.old.stop ≡ None }
    requires sound { Sound engine.old }
    ensures fits { Local (spec_fits sum) result engine.old engine.new }
    ensures kept { engine.new.stop ≡ stop_after result }
    ensures same { engine.new ≡ record engine.old { stop = engine.new.stop } }
    ensures keeps { OnOk result (Kept engine.old engine.new) }
    ensures is { IfOk result (λ c. sum ≡ Ok c) }
{
    match sum {
        Ok(value) => Ok(value),
        Err(_) => Err(engine.bare_fault(fault_code::OVERFLOW)),
    }
}

fn number_sum(a: i32, b: i32) -> Result<Counted, NumFault>
    ensures is { result ≡ spec_number_sum a b }
    ensures like { IfOk result (IsLike (Counted.Number a)) }
{
    as_number(add(a, b))
}

fn dimension_sum(a: Scaled, b: Scaled) -> Result<Counted, NumFault>
    ensures is { result ≡ spec_dimension_sum a b }
    ensures like { IfOk result (IsLike (Counted.Dimension a)) }
{
    as_dimension(add(a.0, b.0))
}

fn sum_of_glue(a: Glue, b: Glue) -> Result<Counted, NumFault>
    requires within { IsGlueWithin a }
    requires more { IsGlueWithin b }
    ensures is { result ≡ spec_sum_of_glue a b }
    ensures like { IfOk result (IsLike (Counted.Glue a)) }
{
    as_glue(a.plus(b))
}

// The product with a number.
fn product(old: Counted, number: i32) -> Result<Counted, NumFault>
    ensures is { result ≡ spec_product old number }
    ensures like { IfOk result (IsLike old) }
{
    match old {
        Counted::Number(old) => as_number(times(old, number, MAX_NUMBER)),
        Counted::Dimension(old) => as_dimension(times(old.0, number, MAX_DIMENSION)),
        Counted::Glue(old) => as_glue(old.times(number)),
    }
}

// The quotient by a number, rounded towards 0.
fn quotient(old: Counted, number: i32) -> Result<Counted, NumFault>
    ensures is { result ≡ spec_quotient old number }
    ensures like { IfOk result (IsLike old) }
{
    match old {
        Counted::Number(old) => as_number(over(old, number)),
        Counted::Dimension(old) => as_dimension(over(old.0, number)),
        Counted::Glue(old) => as_glue(old.over(number)),
    }
}

fn as_number(value: Result<i32, NumFault>) -> Result<Counted, NumFault>
    ensures { result ≡ spec_as_number value }
{
    Ok(Counted::Number(value?))
}

fn as_dimension(value: Result<i32, NumFault>) -> Result<Counted, NumFault>
    ensures { result ≡ spec_as_dimension value }
{
    Ok(Counted::Dimension(Scaled(value?)))
}

fn as_glue(value: Result<Glue, NumFault>) -> Result<Counted, NumFault>
    ensures { result ≡ spec_as_glue value }
{
    Ok(Counted::Glue(value?))
}

// The value of a scope that a count is.
fn value_from(count: Counted) -> Value
    ensures { result ≡ spec_value_from count }
{
    match count {
        Counted::Number(value) => Value::Number(value),
        Counted::Dimension(value) => Value::Number(value.0),
        Counted::Glue(value) => Value::Glue(value),
    }
}
