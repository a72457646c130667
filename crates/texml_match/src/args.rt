//! The arguments of a macro.

ghost use Rattle.std.specs.Prelude.{◌≡◌, ◌<◌, [], ◌∷◌, ◌++◌, length};
ghost use Rattle.texml_token.specs.declared.pieces.TheConstants.{MOST_PARAMETERS};

use smallvec::SmallVec;
use std::alloc::Global;
use std::marker::Model;
use texml_token::{MOST_PARAMETERS, Tokens};

/// The arguments of a macro, at most nine, which take no memory of their own.
#[derive(Debug, Drop)]
pub struct Args {
    lists: SmallVec<Tokens, { MOST_PARAMETERS }>,
}

impl Model for Args {
    ghost use Rattle.std.specs.Prelude.{List, ◌≡◌, ◌≤◌, length};
    ghost use Rattle.texml_token.specs.declared.tokens.Token.{Token};
    ghost use Rattle.texml_token.specs.declared.pieces.TheConstants.{MOST_PARAMETERS};

    ghost Value = { List (List Token) };

    ghost view = { λ args. args.lists.items };

    ghost invariant = { λ args. (length args.lists.items ≤ MOST_PARAMETERS) × (args.lists.capacity ≡ MOST_PARAMETERS) };
}

impl Args {
    /// No arguments.
    pub fn new(alloc: Global) -> Args
        ensures { result ≡ [] }
    {
        Args {
            lists: SmallVec::new(alloc),
        }
    }

    /// Appends an argument, which takes no memory.
    pub fn push(&mut self, list: Tokens)
        requires { length self.old < MOST_PARAMETERS }
        ensures { self.new ≡ self.old ++ list ∷ [] }
    {
        self.lists.push_reserved(list);
    }

    /// The arguments, the first in front.
    pub fn as_slice(&self) -> &[Tokens]
        ensures { result.now ≡ self.now }
    {
        self.lists.as_slice()
    }
}
