//! What no clause says: that the calls answer with ample memory, and that skipping many conditionals ends.

use std::test::Fail;
use texml_cond::*;
use texml_scope::Meaning;
use texml_scope::builtins::{FI, IFTRUE};

#[test]
fn words_are_allowed_by_the_innermost_limit(rt: HostRuntime) -> Result<(), Fail> {
    let mut conditionals = Conds::new(rt.alloc());
    let at = conditionals.begin()?;
    assert_eq!(rt; conditionals.allow(Word::Fi), Allow::Relax);
    conditionals.bound(at, Bound::Else);
    assert_eq!(rt; conditionals.allow(Word::Or), Allow::Extra);
    assert_eq!(rt; conditionals.len(), 1);
    conditionals.close();
    assert_eq!(rt; conditionals.is_empty(), true);
    Ok(())
}

#[test]
fn last_of_too_many_conditionals_is_too_deep(rt: HostRuntime) {
    let mut skip = Skip::new();
    for _ in 1..DEEPEST {
        assert_eq!(rt; skip.feed(&Meaning::Builtin(IFTRUE)), SkipStep::More);
    }
    assert_eq!(rt; skip.feed(&Meaning::Builtin(IFTRUE)), SkipStep::TooDeep);
}

#[test]
fn word_is_reached_behind_what_ends(rt: HostRuntime) {
    let mut skip = Skip::new();
    assert_eq!(rt; skip.feed(&Meaning::Builtin(IFTRUE)), SkipStep::More);
    assert_eq!(rt; skip.feed(&Meaning::Builtin(FI)), SkipStep::More);
    assert_eq!(rt;
        skip.feed(&Meaning::Builtin(FI)),
        SkipStep::Reached(Word::Fi)
    );
}
