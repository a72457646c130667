use crate::small::small_model;
use bumpalo::Bump;
use std::alloc::AllocError;
use std::test::Fail;
use texml_tree::{Elem, Given, Head, Tag, Tree, element};
use texml_xref::resolve;

const REF: Elem = Elem(9);

const NOTHING: Given<'static> = Given {
    target: None,
    attrs: &[],
    labels: &[],
};

const ROOT: Head<'static> = Head {
    elem: Elem(0),
    identified: true,
    given: &NOTHING,
};

const FIRST: Head<'static> = Head {
    elem: Elem(0),
    identified: true,
    given: &Given {
        target: None,
        attrs: &[],
        labels: &[Tag {
            label: b"a",
            number: b"1",
        }],
    },
};

const SECOND: Head<'static> = Head {
    elem: Elem(0),
    identified: true,
    given: &Given {
        target: None,
        attrs: &[],
        labels: &[
            Tag {
                label: b"a",
                number: b"2",
            },
            Tag {
                label: b"a",
                number: b"3",
            },
        ],
    },
};

const TO_A: Head<'static> = Head {
    elem: REF,
    identified: false,
    given: &Given {
        target: Some(b"a"),
        attrs: &[],
        labels: &[],
    },
};

const TO_Z: Head<'static> = Head {
    elem: REF,
    identified: false,
    given: &Given {
        target: Some(b"z"),
        attrs: &[],
        labels: &[],
    },
};

/// A reference to `a`, two elements that have the label, the second twice, and references to `a` and `z`.
fn sample<'a>(arena: &'a Bump) -> Result<Tree<'a>, AllocError> {
    let before = element(arena, TO_A, &[])?;
    let first = element(arena, FIRST, &[])?;
    let second = element(arena, SECOND, &[])?;
    let nowhere = element(arena, TO_Z, &[])?;
    let root = element(arena, ROOT, &[before, first, second, before, nowhere])?;
    Ok(Tree::new(root))
}

#[test]
fn the_last_element_owns_a_label(rt: HostRuntime) -> Result<(), Fail> {
    let alloc = rt.alloc();
    let arena = Bump::new(alloc);
    let linked = resolve(alloc, sample(&arena)?, &small_model(alloc)?)?;
    assert_eq!(rt; linked.references(), 3);
    assert_eq!(rt; linked.undefined(), 1, "z has no owner");
    assert_eq!(rt; linked.sections(), 0);
    assert_eq!(rt; linked.owner(0), Some(2), "before its label");
    assert_eq!(rt; linked.owner(1), Some(2), "behind it");
    assert_eq!(rt; linked.id(2), b"x2".as_slice());
    assert_eq!(rt; linked.number(1), b"3".as_slice(), "the last of its marks");
    Ok(())
}
