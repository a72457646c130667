//! The tokens of a group in braces, as they are fed.
ghost use Rattle.std.specs.Prelude.{◌≡◌, ◌+◌, [], false, cond, IfOk};
ghost use Rattle.texml_token.specs.Numbers.{Table, token_at};
ghost use Rattle.texml_token.specs.declared.category.TheConstants.{BEGIN_GROUP, END_GROUP};
ghost use Rattle.texml_token.specs.Token.{has_category};

use crate::feeding::{Feeder, Verdict};
use std::alloc::{AllocError, Global};
use std::marker::Model;
use std::mem;
use texml_token::{Names, Token, Tokens, category};

// The tokens behind a brace, and how many groups have begun in them and not ended.
#[derive(Drop)]
pub(crate) struct Group {
    alloc: Global,
    body: Tokens,
    inner: usize,
}

impl Model for Group {
    ghost use Rattle.std.specs.Prelude.{List};
    ghost use Rattle.texml_token.specs.declared.tokens.Token.{Token};
    ghost use Rattle.texml_token.specs.Numbers.{Table, tokens_at};
    ghost use Rattle.texml_expand.specs.Feeding.{IsOpen};

    ghost Value = { List Token };

    ghost view = { λ g. g.body };

    ghost invariant = { λ g. (texts : Table) → IsOpen (tokens_at texts g.body) g.inner };
}

impl Group {
    // A group that has just begun. It takes no memory.
    pub(crate) fn new(alloc: Global) -> Group
        ensures { result ≡ [] }
    {
        Group {
            alloc,
            body: Tokens::new(alloc),
            inner: 0,
        }
    }
}

impl Feeder<Tokens> for Group {
    ghost use Rattle.std.specs.Prelude.{◌++◌};
    ghost use Rattle.texml_expand.specs.Feeding.{judge_group};

    ghost judge = { λ group texts list. judge_group texts (group ++ list) };

    fn feed(&mut self, token: Token, _names: &Names) -> Result<Verdict<Tokens>, AllocError> {
        if self.inner == 0 && token.has_category(category::END_GROUP) {
            let body = mem::replace(&mut self.body, Tokens::new(self.alloc));
            return Ok(Verdict::Yields(body));
        }
        let inner = open_behind(self.inner, token)?;
        self.body.push(token)?;
        self.inner = inner;
        Ok(Verdict::TooShort)
    }
}

// How many groups are open behind a token, where so many are before it.
fn open_behind(inner: usize, token: Token) -> Result<usize, AllocError>
    requires { inner ≡ 0 → (texts : Table) → has_category END_GROUP (token_at texts token) ≡ false }
    ensures { IfOk result (λ n. (texts : Table) → n + cond (has_category END_GROUP (token_at texts token)) 1 0 ≡ inner + cond (has_category BEGIN_GROUP (token_at texts token)) 1 0) }
{
    if token.has_category(category::END_GROUP) {
        return Ok(inner - 1);
    }
    if token.has_category(category::BEGIN_GROUP) {
        return inner.checked_add(1).ok_or(AllocError);
    }
    Ok(inner)
}
