//! Tokens, and lists of them whose parts are shared.

ghost use Rattle.std.specs.Prelude.{◌≡◌, ◌↔◌, IsTrue, [], ◌∷◌, ◌++◌, IfOk, OnOk, OnErr};

use std::alloc::{AllocError, Global};
use std::default::MadeWith;
use std::marker::Model;
use std::rc::Rc;

/// A name, by its number in the table of names. Number 0 is the fixed `\relax`.
#[derive(Clone, Copy, Debug, PartialEq, Eq, PartialOrd, Ord, Hash)]
pub struct Name(pub usize);

/// A token: a name, an active character, another character with its category, or, in the body of a macro, the
/// place of a parameter by its number.
#[derive(Clone, Copy, Debug, PartialEq, Eq, PartialOrd, Ord, Hash)]
pub enum Token {
    Char(u32, u8),
    Active(u32),
    Named(Name),
    Param(u8),
}

impl Token {
    ghost use Rattle.texml_token.specs.Token.{has_category};
    ghost use Rattle.texml_token.specs.Numbers.{Table, token_at};

    /// Whether it is a character of this category.
    pub fn has_category(self, category: u8) -> bool
        ensures { (texts : Table) → result ≡ has_category category (token_at texts self) }
    {
        match self {
            Token::Char(_, found) => found == category,
            Token::Active(_) => false,
            Token::Named(_) => false,
            Token::Param(_) => false,
        }
    }
}

/// A list of tokens whose parts are shared by its clones.
#[derive(Debug, Drop)]
pub struct Tokens {
    alloc: Global,
    shared: Option<Rc<Vec<Token>>>,
}

impl Model for Tokens {
    ghost use Rattle.std.specs.Prelude.{List};
    ghost use Rattle.texml_token.specs.declared.tokens.Token.{Token};

    ghost Value = { List Token };

    ghost use Rattle.texml_token.specs.Shared.{shared_items};

    ghost view = { λ t. shared_items t.shared };
}

impl Tokens {
    /// The empty list, which takes no memory.
    pub fn new(alloc: Global) -> Tokens
        ensures { result ≡ [] }
    {
        Tokens {
            alloc,
            shared: None,
        }
    }

    /// The list of these tokens.
    ///
    /// # Errors
    ///
    /// `AllocError` where there is no memory.
    pub fn from_slice(alloc: Global, tokens: &[Token]) -> Result<Tokens, AllocError>
        ensures { IfOk result (λ list. list ≡ tokens.now) }
    {
        Ok(Tokens {
            alloc,
            shared: Some(Rc::new(alloc, Vec::from_slice(alloc, tokens)?)?),
        })
    }

    /// Appends a token. Parts that a clone shares are copied first, so that no other list changes.
    ///
    /// # Errors
    ///
    /// `AllocError` where there is no memory. The list is then as before.
    pub fn push(&mut self, token: Token) -> Result<(), AllocError>
        ensures ok { OnOk result (self.new ≡ self.old ++ token ∷ []) }
        ensures err { OnErr result (self.new ≡ self.old) }
    {
        match &mut self.shared {
            None => {
                let mut items = Vec::new(self.alloc);
                items.push(token)?;
                self.shared = Some(Rc::new(self.alloc, items)?);
            }
            Some(shared) => {
                Rc::make_mut(shared)?.push(token)?;
            }
        }
        Ok(())
    }

    /// The tokens, the first in front.
    pub fn as_slice(&self) -> &[Token]
        ensures { result.now ≡ self.now }
    {
        match &self.shared {
            None => &[],
            Some(shared) => shared.as_slice(),
        }
    }
}

impl Clone for Tokens {
    ghost is_clone = { λ list copy. copy ≡ list };

    fn clone(&self) -> Result<Tokens, AllocError> {
        Ok(Tokens {
            alloc: self.alloc,
            shared: self.shared.clone()?,
        })
    }
}

impl MadeWith<Global> for Tokens {
    ghost is_made_with = { λ list. list ≡ [] };

    fn made_with(alloc: Global) -> Tokens {
        Tokens::new(alloc)
    }
}

impl PartialEq for Tokens {
    ghost eq = { λ x y. pointwise ⟦<Token as PartialEq>⟧.eq x y };

    ghost use Rattle.std.specs.Cmp.Lexicographic.{pointwise, lists_per};
    ghost use Rattle.texml_token.specs.contracts.tokens.TokenPartialEq.TheImpl.Laws.{laws-law};

    ghost laws = { lists_per laws-law };

    fn eq(&self, other: &Tokens) -> bool {
        self.as_slice() == other.as_slice()
    }
}

impl Eq for Tokens {
    ghost use Rattle.std.specs.Cmp.Lexicographic.{lists_equiv};
    ghost use Rattle.texml_token.specs.contracts.tokens.TokenEq.TheImpl.Laws.{laws-law};

    ghost laws = { lists_equiv laws-law };
}

/// Whether two lists of tokens are the same.
pub fn same_tokens(a: &Tokens, b: &Tokens) -> bool
    ensures { IsTrue result ↔ (a.now ≡ b.now) }
{
    *a == *b
}
