//! Trees of small tables of operations.

use crate::small::small_model;
use crate::steps::{Step, ops};
use bumpalo::Bump;
use std::alloc::{AllocError, Global};
use std::process::Abort;
use std::test::Fail;
use texml_build::{BuildFault, build};
use texml_model::Content;
use texml_token::Bytes;
use texml_tree::{Elem, Node, Op, Ops, Sets};
use texml_xref::resolve;

const P: usize = 1;

const LIST: usize = 3;

const ITEM: usize = 4;

const QUOTE: usize = 5;

const TABULAR: usize = 6;

const TD: usize = 8;

const BREAK: usize = 10;

const NUMBER: usize = 0;

const SPAN: usize = 1;

// A text as it is; an element as its name, `!` where it gets an id, its labels, attributes and target, and its children in
// brackets.
fn show(content: &Content, node: &Node<'_>, into: &mut Bytes) -> Result<(), AllocError> {
    match node {
        Node::Text(text) => into.extend(*text),
        Node::Element(head, children) => {
            into.extend(content.name(head.elem))?;
            if head.identified {
                into.extend(b"!")?;
            }
            for tag in head.given.labels {
                into.extend(b"#")?;
                into.extend(tag.label)?;
                into.extend(tag.number)?;
            }
            for at in 0..2 {
                if let Some(value) = node.attr(at) {
                    into.extend(b"=")?;
                    into.extend(value)?;
                }
            }
            if let Some(target) = head.given.target {
                into.extend(b">")?;
                into.extend(target)?;
            }
            into.extend(b"[")?;
            for child in *children {
                show(content, child, into)?;
            }
            into.extend(b"]")
        }
    }
}

// The tree that is shown, or the number of the fault and its two names.
fn shown(alloc: Global, content: &Content, ops: &Ops) -> Result<Bytes, AllocError> {
    let arena = Bump::new(alloc);
    let mut into = Bytes::new(alloc);
    match build(alloc, &arena, ops, content) {
        Ok(tree) => show(content, tree.root(), &mut into)?,
        Err(BuildFault::NoMemory) => into.extend(b"no memory")?,
        Err(BuildFault::Model(fault)) => {
            into.extend(&[48 + fault.code % 10, 32])?;
            into.extend(fault.child.as_slice())?;
            into.extend(b" ")?;
            into.extend(fault.parent.as_slice())?;
        }
    }
    Ok(into)
}

fn check(
    rt: &impl Abort,
    alloc: Global,
    content: &Content,
    steps: &[Step],
    want: &str,
) -> Result<(), Fail> {
    let got = shown(alloc, content, &ops(alloc, steps)?)?;
    assert_eq!(rt; got.as_slice(), want.as_bytes(), "{want}");
    Ok(())
}

fn check_all(rt: &impl Abort, alloc: Global, rows: &[(&[Step], &str)]) -> Result<(), Fail> {
    let content = small_model(alloc)?;
    for row in rows {
        check(rt, alloc, &content, row.0, row.1)?;
    }
    Ok(())
}

const BETWEEN: [(&[Step], &str); 5] = [
    (
        &[Step::Open(TABULAR), Step::Text(b"x"), Step::Close(TABULAR)],
        "document![tabular[tr[td[x]]]]",
    ),
    (&[Step::Text(b"x")], "document![p[x]]"),
    (
        &[
            Step::Text(b""),
            Step::CloseIf(LIST),
            Step::Open(BREAK),
            Step::Close(BREAK),
        ],
        "document![p[break[]]]",
    ),
    (
        &[
            Step::Open(LIST),
            Step::Open(ITEM),
            Step::Text(b"x"),
            Step::Open(ITEM),
            Step::Close(LIST),
        ],
        "document![list[item![p[x]]item![]]]",
    ),
    (
        &[
            Step::Open(LIST),
            Step::Open(ITEM),
            Step::Text(b"x"),
            Step::Open(LIST),
            Step::Close(LIST),
            Step::Close(LIST),
        ],
        "document![list[item![p[x]list[]]]]",
    ),
];

#[test]
fn elements_open_and_close_between(rt: HostRuntime) -> Result<(), Fail> {
    check_all(&rt, rt.alloc(), &BETWEEN)
}

const MISFITS: [(&[Step], &str); 7] = [
    (&[Step::Open(ITEM)], "1 item document"),
    (&[Step::Open(LIST), Step::Text(b"x")], "2  list"),
    (&[Step::Close(P)], "3 p document"),
    (&[Step::Close(0)], "3 document document"),
    (&[Step::Open(LIST)], "4 list "),
    (&[Step::Attr(SPAN, b"x")], "5 span document"),
    (&[Step::With(P, SPAN, b"x")], "5 span p"),
];

#[test]
fn what_does_not_fit_is_a_fault(rt: HostRuntime) -> Result<(), Fail> {
    check_all(&rt, rt.alloc(), &MISFITS)
}

const SPACES: [(&[Step], &str); 3] = [
    (
        &[
            Step::Space,
            Step::Text(b" a"),
            Step::Space,
            Step::Text(b"b"),
            Step::Space,
        ],
        "document![p[a b]]",
    ),
    (
        &[
            Step::Open(P),
            Step::Space,
            Step::Open(BREAK),
            Step::Close(BREAK),
            Step::Space,
            Step::Text(b"x"),
        ],
        "document![p[break[] x]]",
    ),
    (&[Step::Open(P), Step::Space], "document![p[]]"),
];

#[test]
fn texts_join_and_lose_spaces(rt: HostRuntime) -> Result<(), Fail> {
    check_all(&rt, rt.alloc(), &SPACES)
}

const MARKS: [(&[Step], &str); 5] = [
    (
        &[Step::With(TD, SPAN, b"2"), Step::Text(b"x")],
        "1 td document",
    ),
    (
        &[
            Step::Open(TABULAR),
            Step::With(TD, SPAN, b"2"),
            Step::Attr(SPAN, b"3"),
            Step::Close(TABULAR),
        ],
        "document![tabular[tr[td=3[]]]]",
    ),
    (
        &[
            Step::Open(LIST),
            Step::With(ITEM, NUMBER, b"1"),
            Step::Text(b"x"),
            Step::Attr(NUMBER, b"2"),
            Step::Label(b"a", b"1"),
            Step::Label(b"b", b"2"),
            Step::Close(LIST),
        ],
        "document![list[item!#a1#b2=2[p[x]]]]",
    ),
    (
        &[
            Step::Text(b"x"),
            Step::Label(b"a", b""),
            Step::Open(LIST),
            Step::Open(ITEM),
            Step::Label(b"a", b"1"),
            Step::Close(LIST),
        ],
        "document!#a[p[x]list[item!#a1[]]]",
    ),
    (
        &[Step::Text(b"x"), Step::Ref(b"a"), Step::Text(b"y")],
        "document![p[xref>a[]y]]",
    ),
];

#[test]
fn attributes_labels_and_references_find_their_element(rt: HostRuntime) -> Result<(), Fail> {
    check_all(&rt, rt.alloc(), &MARKS)
}

fn quotes(alloc: Global, content: &Content, count: usize) -> Result<Bytes, AllocError> {
    let mut ops = Ops::new(alloc);
    for _k in 0..count {
        ops.push(Op::Open(Elem(QUOTE), Sets::new(alloc)))?;
    }
    shown(alloc, content, &ops)
}

#[test]
fn two_hundred_elements_may_be_open(rt: HostRuntime) -> Result<(), Fail> {
    let content = small_model(rt.alloc())?;
    let deep = quotes(rt.alloc(), &content, 199)?;
    assert_eq!(rt; deep.as_slice(), b"4 quote ".as_slice());
    let deeper = quotes(rt.alloc(), &content, 200)?;
    assert_eq!(rt; deeper.as_slice(), b"6 quote quote".as_slice());
    Ok(())
}

// A list of so many items, each with a label of its own, and a reference to each behind it.
fn many(alloc: Global, count: u32) -> Result<Ops, AllocError> {
    let mut ops = Ops::new(alloc);
    ops.push(Op::Open(Elem(LIST), Sets::new(alloc)))?;
    for i in 0..count {
        let label = Bytes::from_slice(alloc, &i.to_be_bytes())?;
        ops.push(Op::Open(Elem(ITEM), Sets::new(alloc)))?;
        ops.push(Op::Label(label, Bytes::new(alloc)))?;
    }
    ops.push(Op::Close(Elem(LIST)))?;
    for i in 0..count {
        let label = Bytes::from_slice(alloc, &i.to_be_bytes())?;
        ops.push(Op::Ref(label))?;
    }
    Ok(ops)
}

#[test]
fn a_hundred_thousand_labels_are_found(rt: HostRuntime) -> Result<(), Fail> {
    let alloc = rt.alloc();
    let content = small_model(alloc)?;
    let arena = Bump::new(alloc);
    let ops = many(alloc, 100_000)?;
    let tree = build(alloc, &arena, &ops, &content).ok().ok_or("no tree")?;
    let linked = resolve(alloc, tree, &content)?;
    assert_eq!(rt; linked.references(), 100_000);
    assert_eq!(rt; linked.undefined(), 0);
    Ok(())
}
