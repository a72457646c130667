//! Operations on a document, made of texts that the program has.

use std::alloc::{AllocError, Global};
use texml_token::Bytes;
use texml_tree::{Elem, Op, Ops, Sets};

/// An operation on texts that the program has.
#[derive(Clone, Copy)]
pub enum Step {
    Open(usize),
    With(usize, usize, &'static [u8]),
    Close(usize),
    CloseIf(usize),
    Text(&'static [u8]),
    Space,
    Attr(usize, &'static [u8]),
    Label(&'static [u8], &'static [u8]),
    Ref(&'static [u8]),
}

fn op(alloc: Global, step: Step) -> Result<Op, AllocError> {
    Ok(match step {
        Step::Open(elem) => Op::Open(Elem(elem), Sets::new(alloc)),
        Step::With(elem, attr, value) => {
            let mut sets = Sets::new(alloc);
            sets.push((attr, Bytes::from_slice(alloc, value)?))?;
            Op::Open(Elem(elem), sets)
        }
        Step::Close(elem) => Op::Close(Elem(elem)),
        Step::CloseIf(elem) => Op::CloseIf(Elem(elem)),
        Step::Text(text) => Op::Text(Bytes::from_slice(alloc, text)?),
        Step::Space => Op::Space,
        Step::Attr(attr, value) => Op::Attr(attr, Bytes::from_slice(alloc, value)?),
        Step::Label(label, number) => Op::Label(
            Bytes::from_slice(alloc, label)?,
            Bytes::from_slice(alloc, number)?,
        ),
        Step::Ref(label) => Op::Ref(Bytes::from_slice(alloc, label)?),
    })
}

pub fn ops(alloc: Global, steps: &[Step]) -> Result<Ops, AllocError> {
    let mut ops = Ops::new(alloc);
    for step in steps {
        ops.push(op(alloc, *step)?)?;
    }
    Ok(ops)
}
