//! Gathers the operations that digestion gives, with texts that go on as one.

ghost use Rattle.std.specs.Prelude.{◌≡◌, [], IfOk, OnOk};
ghost use Rattle.texml_top.specs.Gather.{nothing_yet, all_of};

use crate::document::Document;
use crate::table::{BREAK, CODE, PARAGRAPH};
use std::alloc::{AllocError, Global};
use std::mem;
use texml_token::Bytes;
use texml_tree::{Elem, Op, Sets};

/// What a token puts into the document.
#[derive(Debug, Drop)]
pub enum Piece {
    Nothing,
    Char(char),
    Space,
    ParagraphEnd,
    Break,
    Code(Bytes),
}

/// Operations, and behind them a text that may go on.
#[derive(Drop)]
pub struct Gathered<'c, 'a> {
    pub ops: Document<'c, 'a>,
    pub text: Bytes,
}

impl<'c, 'a> Gathered<'c, 'a> {
    ghost use Rattle.texml_top.specs.Gather.{with_op, with_text, with_space, add_all, ops_of};
    ghost use Rattle.std.specs.Prelude.{[]};

    /// Nothing so far. It takes no memory.
    pub fn new(alloc: Global, ops: Document<'c, 'a>) -> Gathered<'c, 'a>
        requires { ops ≡ [] }
        ensures { result ≡ nothing_yet }
    {
        Gathered {
            ops,
            text: Bytes::new(alloc),
        }
    }

    /// Puts what a token gives behind the others.
    #[inline(always)]
    pub fn add(&mut self, alloc: Global, piece: Piece) -> Result<(), AllocError>
        ensures { OnOk result (self.new ≡ add_all self.old (ops_of piece)) }
    {
        match piece {
            Piece::Nothing => Ok(()),
            Piece::Char(c) => {
                let mut buffer = [0; 4];
                self.add_text(alloc, c.encode_utf8(&mut buffer).as_bytes())
            }
            Piece::Space => self.add_space(alloc),
            Piece::ParagraphEnd => self.add_op(alloc, Op::CloseIf(PARAGRAPH)),
            Piece::Break => {
                self.open(alloc, BREAK)?;
                self.add_op(alloc, Op::Close(BREAK))
            }
            Piece::Code(text) => {
                self.open(alloc, CODE)?;
                self.add_text(alloc, text.as_slice())?;
                self.add_op(alloc, Op::Close(CODE))
            }
        }
    }

    /// All operations.
    pub fn finish(self, alloc: Global) -> Result<Document<'c, 'a>, AllocError>
        ensures { IfOk result (λ ops. ops ≡ all_of self.entry) }
    {
        let mut gathered = self;
        gathered.end_text(alloc)?;
        Ok(gathered.ops)
    }

    // Opens an element without attributes.
    fn open(&mut self, alloc: Global, elem: Elem) -> Result<(), AllocError>
        ensures { OnOk result (self.new ≡ with_op self.old (Op.Open elem [])) }
    {
        self.add_op(alloc, Op::Open(elem, Sets::new(alloc)))
    }

    // Puts an operation behind the others.
    fn add_op(&mut self, alloc: Global, op: Op) -> Result<(), AllocError>
        ensures { OnOk result (self.new ≡ with_op self.old op) }
    {
        self.end_text(alloc)?;
        self.ops.add(&op)
    }

    // Puts a text behind the others.
    #[inline(always)]
    fn add_text(&mut self, alloc: Global, text: &[u8]) -> Result<(), AllocError>
        ensures { OnOk result (self.new ≡ with_text self.old text.now) }
    {
        if text.is_empty() {
            return self.add_op(alloc, Op::Text(Bytes::new(alloc)));
        }
        self.text.extend(text)
    }

    // Puts a space behind the others.
    #[inline(always)]
    fn add_space(&mut self, alloc: Global) -> Result<(), AllocError>
        ensures { OnOk result (self.new ≡ with_space self.old self.old.text) }
    {
        if self.text.as_slice().is_empty() {
            return self.add_op(alloc, Op::Space);
        }
        self.text.push(b' ')
    }

    // Ends the text.
    fn end_text(&mut self, alloc: Global) -> Result<(), AllocError>
        ensures { OnOk result (self.new ≡ record { ops = all_of self.old; text = [] }) }
    {
        if self.text.as_slice().is_empty() {
            return Ok(());
        }
        let text = mem::replace(&mut self.text, Bytes::new(alloc));
        self.ops.add(&Op::Text(text))
    }
}
