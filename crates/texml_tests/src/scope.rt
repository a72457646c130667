//! What no clause says: that the calls answer with ample memory, and that groups keep no copies.

use std::test::Fail;
use texml_base::Steps;
use texml_scope::*;
use texml_token::{Token, Tokens};

#[test]
fn local_value_ends_with_its_group(rt: HostRuntime) -> Result<(), Fail> {
    let mut steps = Steps::new();
    let mut scope = Scope::new(rt.alloc());
    scope.begin(GroupKind::Brace)?;
    scope.set(Key::Cat(64), Value::Number(11), &mut steps)?;
    scope.after_group(Token::Active(2))?;
    let after = scope.end(GroupKind::Brace, &mut steps)?;
    assert_eq!(rt; after.as_slice(), [Token::Active(2)].as_slice());
    assert_eq!(rt; scope.number(&Key::Cat(64)), Some(12));
    Ok(())
}

#[test]
fn values_under_a_global_one_are_not_put_back(rt: HostRuntime) -> Result<(), Fail> {
    let mut steps = Steps::new();
    let mut scope = Scope::new(rt.alloc());
    let key = Key::Count(1);
    scope.begin(GroupKind::Brace)?;
    scope.set(key, Value::Number(2), &mut steps)?;
    scope.set_global(key, Value::Number(3), &mut steps)?;
    scope.set(key, Value::Number(4), &mut steps)?;
    let mut ending = Steps::new();
    scope.end(GroupKind::Brace, &mut ending)?;
    assert_eq!(rt; scope.number(&key), Some(3));
    assert_eq!(rt; ending.taken() <= 3, true);
    Ok(())
}

// Where each group had a copied table, there would be 2 * 10^9 entries.
#[test]
fn many_groups_over_many_keys(rt: HostRuntime) -> Result<(), Fail> {
    let mut steps = Steps::new();
    let mut scope = Scope::new(rt.alloc());
    for code in 65536..85536 {
        scope.set(Key::Lower(code), Value::Number(1), &mut steps)?;
    }
    for i in 1..100001u32 {
        scope.begin(GroupKind::Brace)?;
        scope.set(Key::Count(1), Value::Number(i as i32), &mut steps)?;
    }
    let mut ending = Steps::new();
    for i in (0..100000u32).rev() {
        scope.end(GroupKind::Brace, &mut ending)?;
        assert_eq!(rt; scope.number(&Key::Count(1)), Some(i as i32));
    }
    assert_eq!(rt; ending.taken(), 100000);
    Ok(())
}

#[test]
fn equal_macros_are_the_same(rt: HostRuntime) -> Result<(), Fail> {
    let alloc = rt.alloc();
    let body = Tokens::from_slice(alloc, &[Token::Char(97, 11)])?;
    let one = Meaning::Macro(plain_macro(alloc, body.clone()?));
    let other = Meaning::Macro(plain_macro(alloc, body));
    assert_eq!(rt; same_meaning(&one, &other), true);
    assert_eq!(rt; same_meaning(&one, &Meaning::Undefined), false);
    let value = Value::Means(one);
    assert_eq!(rt; copied(&value)?, value);
    Ok(())
}
