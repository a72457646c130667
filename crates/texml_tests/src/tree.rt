//! Trees and lists with ample memory.

use bumpalo::Bump;
use std::alloc::Global;
use std::test::Fail;
use texml_token::{ByteList, Bytes};
use texml_tree::{
    Attr, Elem, ElementLine, ElementLines, Elements, Flags, Given, Head, ModelFault, Node, Op, Ops,
    Sets, Tag, Tree, element, leaf, model_fault,
};

const PLAIN: Head<'static> = Head {
    elem: Elem(3),
    identified: false,
    given: &Given {
        target: None,
        attrs: &[],
        labels: &[],
    },
};

/// The texts of a tree, one behind the other.
fn texts(node: &Node<'_>, into: &mut Bytes) -> Result<(), Fail> {
    match node {
        Node::Text(text) => {
            into.extend(*text)?;
        }
        Node::Element(_, children) => {
            for child in *children {
                texts(child, into)?;
            }
        }
    }
    Ok(())
}

#[test]
fn a_tree_is_walked(rt: HostRuntime) -> Result<(), Fail> {
    let alloc = rt.alloc();
    let arena = Bump::new(alloc);
    let first = leaf(&arena, b"one ")?;
    let second = leaf(&arena, b"two")?;
    let inner = element(&arena, PLAIN, &[second])?;
    let root = element(&arena, PLAIN, &[first, inner])?;
    let tree = Tree::new(root);
    let mut all = Bytes::new(alloc);
    texts(tree.root(), &mut all)?;
    assert_eq!(rt; all.as_slice(), b"one two".as_slice());
    Ok(())
}

#[test]
fn an_element_has_what_was_given_to_it(rt: HostRuntime) -> Result<(), Fail> {
    let given = Given {
        target: Some(b"sec:a"),
        attrs: &[
            Attr {
                number: 1,
                value: b"old",
            },
            Attr {
                number: 0,
                value: b"other",
            },
            Attr {
                number: 1,
                value: b"new",
            },
        ],
        labels: &[
            Tag {
                label: b"a",
                number: b"1",
            },
            Tag {
                label: b"b",
                number: b"2",
            },
        ],
    };
    let head = Head {
        elem: Elem(7),
        identified: true,
        given: &given,
    };
    let node = Node::Element(&head, &[]);
    assert_eq!(rt; node.elem(), Some(Elem(7)));
    assert!(rt; node.identified());
    assert_eq!(rt; node.target(), Some(b"sec:a".as_slice()));
    assert_eq!(rt; node.attr(1), Some(b"new".as_slice()));
    assert_eq!(rt; node.attr(2), None);
    let labels = node.labels();
    assert_eq!(rt; labels.len(), 2);
    assert!(rt; node.text().is_empty() && node.children().is_empty());
    Ok(())
}

#[test]
fn a_text_has_only_its_bytes(rt: HostRuntime) -> Result<(), Fail> {
    let node = Node::Text(b"x");
    assert_eq!(rt; node.text(), b"x".as_slice());
    assert_eq!(rt; node.elem(), None);
    assert!(rt; !node.identified());
    assert_eq!(rt; node.target(), None);
    assert_eq!(rt; node.attr(0), None);
    assert!(rt; node.labels().is_empty() && node.children().is_empty());
    Ok(())
}

#[test]
fn copies_of_operations_are_equal(rt: HostRuntime) -> Result<(), Fail> {
    let alloc = rt.alloc();
    let mut sets = Sets::new(alloc);
    sets.push((2, Bytes::from_slice(alloc, b"v")?))?;
    let mut ops = Ops::new(alloc);
    ops.push(Op::Open(Elem(1), sets))?;
    ops.push(Op::Space)?;
    let copy = ops.clone()?;
    assert_eq!(rt; copy.as_slice().len(), 2);
    match copy.as_slice() {
        [Op::Open(elem, sets), Op::Space] => {
            assert_eq!(rt; *elem, Elem(1));
            assert_eq!(rt; sets.as_slice().len(), 1);
        }
        _ => assert!(rt; false),
    }
    Ok(())
}

fn line(alloc: Global) -> Result<ElementLine, Fail> {
    Ok(ElementLine {
        name: Bytes::from_slice(alloc, b"item")?,
        tag: Bytes::from_slice(alloc, b"li")?,
        class: None,
        flags: Flags {
            text: false,
            block: false,
            opens: true,
            closes: true,
            id: true,
            toc: false,
            void: false,
        },
        holds: ByteList::new(alloc),
        attrs: ByteList::new(alloc),
    })
}

#[test]
fn a_table_keeps_its_lines(rt: HostRuntime) -> Result<(), Fail> {
    let alloc = rt.alloc();
    let mut lines = ElementLines::new(alloc);
    lines.push(line(alloc)?)?;
    let elements = Elements {
        lines,
        attributes: ByteList::new(alloc),
    };
    assert_eq!(rt; elements.lines.as_slice().len(), 1);
    let fault = ModelFault {
        code: model_fault::UNCLOSED,
        child: Bytes::from_slice(alloc, b"item")?,
        parent: Bytes::new(alloc),
    };
    assert!(rt; fault.clone()? == fault);
    Ok(())
}
