//! Variables: what commands set and quantities are read from, by the builtins that name them.

ghost use Rattle.std.specs.Prelude.{◌≡◌, ◌≤◌, IfOk};
ghost use Rattle.texml_expand.specs.Variables.{variable_at, index_of};
ghost use Rattle.texml_expand.specs.VariableCodes.{HasNumber, key_by};

use texml_scope::Key;
use texml_scope::builtins::{
    CATCODE, COUNT, DIMEN, ENDLINECHAR, ESCAPECHAR, LCCODE, SKIP, TOKS, UCCODE,
};

/// The number of the last register of each kind.
pub const LAST_REGISTER: u32 = 255;

const _: () = prove!(LAST_REGISTER == 255);

/// The variables that one builtin names.
#[derive(Clone, Copy, Debug, PartialEq, Eq)]
pub enum Variable {
    Cat,
    Lower,
    Upper,
    EscapeChar,
    EndLineChar,
    Count,
    Dimen,
    Skip,
    Toks,
}

/// The number that comes behind a builtin to name one of its variables: that of a character, that of a register, or none.
#[derive(Clone, Copy, Debug, PartialEq, Eq)]
pub enum Index {
    Alone,
    Character,
    Register,
}

/// The variables that the builtin of a place names, if it does.
pub fn variable_at(place: u16) -> Option<Variable>
    ensures { result ≡ variable_at place }
{
    match place {
        CATCODE => Some(Variable::Cat),
        LCCODE => Some(Variable::Lower),
        UCCODE => Some(Variable::Upper),
        ESCAPECHAR => Some(Variable::EscapeChar),
        ENDLINECHAR => Some(Variable::EndLineChar),
        COUNT => Some(Variable::Count),
        DIMEN => Some(Variable::Dimen),
        SKIP => Some(Variable::Skip),
        TOKS => Some(Variable::Toks),
        _ => None,
    }
}

/// What comes behind the builtin.
pub fn index_of(variable: Variable) -> Index
    ensures { result ≡ index_of variable }
{
    match variable {
        Variable::Cat | Variable::Lower | Variable::Upper => Index::Character,
        Variable::EscapeChar | Variable::EndLineChar => Index::Alone,
        Variable::Count | Variable::Dimen | Variable::Skip | Variable::Toks => Index::Register,
    }
}

/// The variable of this number.
pub fn key_of(variable: Variable, number: u32) -> Key
    requires { HasNumber (index_of variable) number }
    ensures { result ≡ key_by variable number }
{
    match variable {
        Variable::Cat => Key::Cat(number),
        Variable::Lower => Key::Lower(number),
        Variable::Upper => Key::Upper(number),
        Variable::EscapeChar => Key::EscapeChar,
        Variable::EndLineChar => Key::EndLineChar,
        Variable::Count => Key::Count(number as u16),
        Variable::Dimen => Key::Dimen(number as u16),
        Variable::Skip => Key::Skip(number as u16),
        Variable::Toks => Key::Toks(number as u16),
    }
}
