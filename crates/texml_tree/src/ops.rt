//! The operations that make a tree, and what is wrong with operations that the table doesn't allow.

ghost use Rattle.std.specs.Prelude.{◌≡◌, [], ◌∷◌, ◌++◌, OnOk, OnErr};

use crate::table::Elem;
use std::alloc::{AllocError, Global};
use std::marker::Model;
use texml_token::Bytes;

/// A list of attributes that are set, each with its number and its value.
#[derive(Debug, Drop)]
pub struct Sets {
    items: Vec<(usize, Bytes)>,
}

impl Model for Sets {
    ghost use Rattle.std.specs.Prelude.{List, ℕ};

    ghost Value = { List (ℕ × List ℕ) };

    ghost view = { λ s. s.items.items };
}

impl Sets {
    /// The empty list, which takes no memory.
    pub fn new(alloc: Global) -> Sets
        ensures { result ≡ [] }
    {
        Sets {
            items: Vec::new(alloc),
        }
    }

    /// Appends an attribute's number with its value.
    ///
    /// # Errors
    ///
    /// `AllocError` where there is no memory. The list is then as before.
    pub fn push(&mut self, set: (usize, Bytes)) -> Result<(), AllocError>
        ensures ok { OnOk result (self.new ≡ self.old ++ set ∷ []) }
        ensures err { OnErr result (self.new ≡ self.old) }
    {
        self.items.push(set)?;
        Ok(())
    }

    /// The attributes, the first in front.
    pub fn as_slice(&self) -> &[(usize, Bytes)]
        ensures { result.now ≡ self.now }
    {
        self.items.as_slice()
    }
}

impl Clone for Sets {
    ghost is_clone = { λ list copy. copy ≡ list };

    fn clone(&self) -> Result<Sets, AllocError> {
        Ok(Sets {
            items: self.items.clone()?,
        })
    }
}

/// One step in the making of a tree.
#[derive(Debug, Drop)]
pub enum Op {
    /// Opens an element with these attributes, where it fits.
    Open(Elem, Sets),
    /// Closes the innermost open element of this name.
    Close(Elem),
    /// Closes it if that can be done.
    CloseIf(Elem),
    /// Puts a text where one fits.
    Text(Bytes),
    /// Puts a space, if a text may stand in the innermost open element.
    Space,
    /// Sets an attribute of the innermost open element that may have it.
    Attr(usize, Bytes),
    /// Puts a label, with its number, on the innermost open element that gets an id.
    Label(Bytes, Bytes),
    /// Opens and closes an element that refers to this label.
    Ref(Bytes),
}

impl Clone for Op {
    ghost is_clone = { λ op copy. copy ≡ op };

    fn clone(&self) -> Result<Op, AllocError> {
        match self {
            Op::Open(elem, sets) => Ok(Op::Open(*elem, sets.clone()?)),
            Op::Close(elem) => Ok(Op::Close(*elem)),
            Op::CloseIf(elem) => Ok(Op::CloseIf(*elem)),
            Op::Text(text) => Ok(Op::Text(text.clone()?)),
            Op::Space => Ok(Op::Space),
            Op::Attr(attr, value) => Ok(Op::Attr(*attr, value.clone()?)),
            Op::Label(label, number) => Ok(Op::Label(label.clone()?, number.clone()?)),
            Op::Ref(label) => Ok(Op::Ref(label.clone()?)),
        }
    }
}

/// A list of operations.
#[derive(Debug, Drop)]
pub struct Ops {
    items: Vec<Op>,
}

impl Model for Ops {
    ghost use Rattle.std.specs.Prelude.{List};
    ghost use Rattle.texml_tree.specs.declared.ops.Op.{Op};

    ghost Value = { List Op };

    ghost view = { λ o. o.items.items };
}

impl Ops {
    /// The empty list, which takes no memory.
    pub fn new(alloc: Global) -> Ops
        ensures { result ≡ [] }
    {
        Ops {
            items: Vec::new(alloc),
        }
    }

    /// Appends an operation.
    ///
    /// # Errors
    ///
    /// `AllocError` where there is no memory. The list is then as before.
    pub fn push(&mut self, op: Op) -> Result<(), AllocError>
        ensures ok { OnOk result (self.new ≡ self.old ++ op ∷ []) }
        ensures err { OnErr result (self.new ≡ self.old) }
    {
        self.items.push(op)?;
        Ok(())
    }

    /// The operations, the first in front.
    pub fn as_slice(&self) -> &[Op]
        ensures { result.now ≡ self.now }
    {
        self.items.as_slice()
    }
}

impl Clone for Ops {
    ghost is_clone = { λ list copy. copy ≡ list };

    fn clone(&self) -> Result<Ops, AllocError> {
        Ok(Ops {
            items: self.items.clone()?,
        })
    }
}
