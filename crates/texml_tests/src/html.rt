//! Pages of small trees.

use crate::small::small_model;
use crate::steps::{Step, ops};
use bumpalo::Bump;
use std::alloc::AllocError;
use std::test::Fail;
use texml_base::{MemorySink, SinkFail};
use texml_build::build;
use texml_html::write;
use texml_xref::resolve;

const P: usize = 1;

const LIST: usize = 3;

const ITEM: usize = 4;

const TABULAR: usize = 6;

const TD: usize = 8;

const BREAK: usize = 10;

const NUMBER: usize = 0;

const SPAN: usize = 1;

const SAMPLE: [Step; 19] = [
    Step::Open(P),
    Step::Text(b"\"<&>"),
    Step::Open(BREAK),
    Step::Close(BREAK),
    Step::Ref(b"a"),
    Step::Ref(b"z"),
    Step::Close(P),
    Step::Open(LIST),
    Step::Open(ITEM),
    Step::Label(b"a", b"1"),
    Step::Attr(NUMBER, b"7"),
    Step::Text(b"b"),
    Step::Close(ITEM),
    Step::Close(LIST),
    Step::Open(TABULAR),
    Step::Open(TD),
    Step::Attr(SPAN, b"\"<&>"),
    Step::Text(b"c"),
    Step::Close(TABULAR),
];

const PAGE: &[u8] =
    b"<!DOCTYPE html>\n<html><head><meta charset=\"utf-8\"><title>untitled</title></head><body><document id=\"x0\"><p>\"&lt;&amp;&gt;<break><a href=\"#x1\">1</a><span class=\"undefined\">??</span></p><list><item id=\"x1\"><p>b</p></item></list><tabular><tr><td span=\"&quot;&lt;&amp;>\">c</td></tr></tabular></document></body></html>\n";

#[tactic(auto, using(texml_html::proofs::Known::valid_is_known))]
#[test]
fn a_page_is_written_or_cut(rt: HostRuntime) -> Result<(), Fail> {
    let alloc = rt.alloc();
    let arena = Bump::new(alloc);
    let content = small_model(alloc)?;
    let linked = match build(alloc, &arena, &ops(alloc, &SAMPLE)?, &content) {
        Ok(tree) => resolve(alloc, tree, &content)?,
        Err(_) => return Err(Fail::from(AllocError)),
    };
    let mut whole = MemorySink::new(alloc, 1000, 0)?;
    assert_eq!(rt; write(&linked, &content, &mut whole), Ok(()));
    assert_eq!(rt; whole.bytes(), PAGE);
    let mut cut = MemorySink::new(alloc, 70, 0)?;
    assert_eq!(rt; write(&linked, &content, &mut cut), Err(SinkFail));
    assert_eq!(rt; cut.bytes(), &PAGE[..70]);
    Ok(())
}
