//! Conditionals: their tests, and which text they choose (The TeXbook, chapter 20).

ghost use Rattle.std.specs.Prelude.{◌≡◌};
ghost use Rattle.texml_expand.specs.Branches.{test_at as spec_test_at, meets as spec_meets, choose as spec_choose, choose_case as spec_choose_case};

use texml_cond::{Bound, Word};
use texml_scope::builtins::{IF, IFCASE, IFCAT, IFDIM, IFFALSE, IFNUM, IFODD, IFTRUE, IFX};

/// What a conditional tests: whether two tokens have the same code, the same category, or the same meaning; how two numbers or
/// two dimensions compare; whether a number is odd; nothing; or which of its texts a number chooses.
#[derive(Clone, Copy, Debug, PartialEq, Eq)]
pub(crate) enum Test {
    If,
    IfCat,
    IfX,
    IfNum,
    IfDim,
    IfOdd,
    IfTrue,
    IfFalse,
    IfCase,
}

/// What is sought in skipped text: the end of the conditional; its `\else` or its end, where `\or` may not come; the text behind
/// one `\or` more than so many, or that behind `\else`; or the text behind `\else`, past each `\or`.
#[derive(Clone, Copy, Debug, PartialEq, Eq)]
pub(crate) enum Sought {
    End,
    Otherwise,
    Case(u32),
    NoCase,
}

/// What a conditional's own word does in skipped text: it ends the conditional; the text behind it is chosen, under this limit; it may
/// not come; or something else is sought behind it.
#[derive(Clone, Copy, Debug, PartialEq, Eq)]
pub(crate) enum Met {
    Ends,
    Chooses(Bound),
    Forbidden,
    Passes(Sought),
}

/// Which text a test chooses: the one that comes, under this limit, or one that is sought.
#[derive(Clone, Copy, Debug, PartialEq, Eq)]
pub(crate) enum Choice {
    Comes(Bound),
    Skips(Sought),
}

/// What `\if` and `\ifcat` see of a token: the code and the category of a character. Another token has a code and a category that
/// no character has.
#[derive(Clone, Copy, Debug, PartialEq, Eq)]
pub(crate) struct Face {
    pub(crate) code: u32,
    pub(crate) category: u8,
}

// A code and a category that no character has.
pub(crate) const NO_CODE: u32 = 0x110000;

pub(crate) const NO_CATEGORY: u8 = 16;

const _: () = prove!(NO_CODE == 0x110000);

const _: () = prove!(NO_CATEGORY == 16);

// The test that the builtin of a place begins, if it begins one.
pub(crate) fn test_at(place: u16) -> Option<Test>
    ensures { result ≡ spec_test_at place }
{
    match place {
        IF => Some(Test::If),
        IFCAT => Some(Test::IfCat),
        IFX => Some(Test::IfX),
        IFNUM => Some(Test::IfNum),
        IFDIM => Some(Test::IfDim),
        IFODD => Some(Test::IfOdd),
        IFTRUE => Some(Test::IfTrue),
        IFFALSE => Some(Test::IfFalse),
        IFCASE => Some(Test::IfCase),
        _ => None,
    }
}

// What a conditional's own word does where this is sought.
pub(crate) fn meets(sought: Sought, word: Word) -> Met
    ensures { result ≡ spec_meets sought word }
{
    match (word, sought) {
        (Word::Fi, _) => Met::Ends,
        (_, Sought::End) => Met::Passes(Sought::End),
        (Word::Else, _) => Met::Chooses(Bound::Fi),
        (Word::Or, Sought::Otherwise) => Met::Forbidden,
        (Word::Or, Sought::Case(0)) => Met::Chooses(Bound::Or),
        (Word::Or, Sought::Case(more)) => Met::Passes(Sought::Case(more - 1)),
        (Word::Or, Sought::NoCase) => Met::Passes(Sought::NoCase),
    }
}

// The text that a test chooses.
pub(crate) fn choose(holds: bool) -> Choice
    ensures { result ≡ spec_choose holds }
{
    if holds {
        Choice::Comes(Bound::Else)
    } else {
        Choice::Skips(Sought::Otherwise)
    }
}

// The text that a number chooses.
pub(crate) fn choose_case(number: i32) -> Choice
    ensures { result ≡ spec_choose_case number }
{
    if number < 0 {
        Choice::Skips(Sought::NoCase)
    } else if number == 0 {
        Choice::Comes(Bound::Or)
    } else {
        Choice::Skips(Sought::Case((number - 1) as u32))
    }
}
