//! What can be executed: prefixes and commands.

ghost use Rattle.std.specs.Prelude.{◌≡◌};
ghost use Rattle.texml_assign.specs.Table.{executable_at, is_definition, is_assignment, with_prefix, may_follow};

use crate::letters::Case;
use crate::targets::{Registers, Target};
use texml_expand::variable_at;
use texml_scope::builtins::{
    ADVANCE, AFTERASSIGNMENT, AFTERGROUP, BEGINGROUP, CHARDEF, COUNTDEF, DEF, DIMENDEF, DIVIDE,
    EDEF, ENDGROUP, GDEF, GLOBAL, IGNORESPACES, LET, LONG, LOWERCASE, MULTIPLY, NEWCOMMAND, NEWIF,
    OUTER, PROVIDECOMMAND, RELAX, RENEWCOMMAND, SKIPDEF, TOKSDEF, UPPERCASE, XDEF,
};

/// A prefix of commands (The TeXbook, chapter 24).
#[derive(Clone, Copy, Debug, PartialEq, Eq)]
pub enum Prefix {
    Long,
    Outer,
    Global,
}

/// Whether a command is made that is new, made again, or made where there is none.
#[derive(Clone, Copy, Debug, PartialEq, Eq)]
pub enum Naming {
    New,
    Renew,
    Provide,
}

/// What a short name stands for: a character, or a register of a kind.
#[derive(Clone, Copy, Debug, PartialEq, Eq)]
pub enum ShortFor {
    Character,
    Register(Registers),
}

/// What is done with a value that is counted with.
#[derive(Clone, Copy, Debug, PartialEq, Eq)]
pub enum Arithmetic {
    Advance,
    Multiply,
    Divide,
}

/// A command.
#[derive(Clone, Copy, Debug, PartialEq, Eq)]
pub enum Command {
    Relax,
    Def,
    Gdef,
    Edef,
    Xdef,
    Let,
    BeginGroup,
    EndGroup,
    AfterGroup,
    AfterAssignment,
    NewCommand(Naming),
    NewIf,
    ChangeCase(Case),
    IgnoreSpaces,
    Assign(Target),
    Short(ShortFor),
    Arithmetic(Arithmetic),
}

/// What can be executed.
#[derive(Clone, Copy, Debug, PartialEq, Eq)]
pub enum Executable {
    Prefix(Prefix),
    Command(Command),
}

/// The prefixes that stand before a command.
#[derive(Clone, Copy, Debug, PartialEq, Eq)]
pub struct Prefixes {
    pub long: bool,
    pub outer: bool,
    pub global: bool,
}

impl Prefixes {
    /// No prefix.
    pub const NONE: Prefixes = Prefixes {
        long: false,
        outer: false,
        global: false,
    };
}

/// What the builtin of this place is, if it can be executed.
pub fn executable_at(place: u16) -> Option<Executable>
    ensures { result ≡ executable_at place }
{
    match place {
        RELAX => Some(Executable::Command(Command::Relax)),
        DEF => Some(Executable::Command(Command::Def)),
        GDEF => Some(Executable::Command(Command::Gdef)),
        EDEF => Some(Executable::Command(Command::Edef)),
        XDEF => Some(Executable::Command(Command::Xdef)),
        LET => Some(Executable::Command(Command::Let)),
        LONG => Some(Executable::Prefix(Prefix::Long)),
        OUTER => Some(Executable::Prefix(Prefix::Outer)),
        GLOBAL => Some(Executable::Prefix(Prefix::Global)),
        BEGINGROUP => Some(Executable::Command(Command::BeginGroup)),
        ENDGROUP => Some(Executable::Command(Command::EndGroup)),
        AFTERGROUP => Some(Executable::Command(Command::AfterGroup)),
        AFTERASSIGNMENT => Some(Executable::Command(Command::AfterAssignment)),
        NEWCOMMAND => Some(Executable::Command(Command::NewCommand(Naming::New))),
        RENEWCOMMAND => Some(Executable::Command(Command::NewCommand(Naming::Renew))),
        PROVIDECOMMAND => Some(Executable::Command(Command::NewCommand(Naming::Provide))),
        NEWIF => Some(Executable::Command(Command::NewIf)),
        LOWERCASE => Some(Executable::Command(Command::ChangeCase(Case::Small))),
        UPPERCASE => Some(Executable::Command(Command::ChangeCase(Case::Capital))),
        IGNORESPACES => Some(Executable::Command(Command::IgnoreSpaces)),
        CHARDEF => Some(Executable::Command(Command::Short(ShortFor::Character))),
        COUNTDEF => Some(short(Registers::Count)),
        DIMENDEF => Some(short(Registers::Dimen)),
        SKIPDEF => Some(short(Registers::Skip)),
        TOKSDEF => Some(short(Registers::Toks)),
        ADVANCE => Some(Executable::Command(Command::Arithmetic(Arithmetic::Advance))),
        MULTIPLY => Some(Executable::Command(Command::Arithmetic(Arithmetic::Multiply))),
        DIVIDE => Some(Executable::Command(Command::Arithmetic(Arithmetic::Divide))),
        _ => match variable_at(place) {
            Some(variable) => Some(Executable::Command(Command::Assign(Target::Behind(variable)))),
            None => None,
        },
    }
}

// The command that names registers of a kind.
fn short(registers: Registers) -> Executable
    ensures { result ≡ Executable.Command (Command.Short (ShortFor.Register registers)) }
{
    Executable::Command(Command::Short(ShortFor::Register(registers)))
}

/// Whether a command is a definition.
pub fn is_definition(command: Command) -> bool
    ensures { result ≡ is_definition command }
{
    matches!(
        command,
        Command::Def | Command::Gdef | Command::Edef | Command::Xdef
    )
}

/// Whether a command is an assignment, behind which the token of `\afterassignment` comes.
pub fn is_assignment(command: Command) -> bool
    ensures { result ≡ is_assignment command }
{
    matches!(
        command,
        Command::Def
            | Command::Gdef
            | Command::Edef
            | Command::Xdef
            | Command::Let
            | Command::Assign(_)
            | Command::Short(_)
            | Command::Arithmetic(_)
    )
}

/// The prefixes with one more.
pub fn with_prefix(prefixes: Prefixes, prefix: Prefix) -> Prefixes
    ensures { result ≡ with_prefix prefixes prefix }
{
    match prefix {
        Prefix::Long => Prefixes {
            long: true,
            ..prefixes
        },
        Prefix::Outer => Prefixes {
            outer: true,
            ..prefixes
        },
        Prefix::Global => Prefixes {
            global: true,
            ..prefixes
        },
    }
}

/// Whether a command may stand behind prefixes: an assignment, and behind `\long` or `\outer` only a definition.
pub fn may_follow(prefixes: Prefixes, command: Command) -> bool
    ensures { result ≡ may_follow prefixes command }
{
    if prefixes.long || prefixes.outer {
        is_definition(command)
    } else {
        is_assignment(command)
    }
}
