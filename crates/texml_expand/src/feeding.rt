//! What the next tokens decide, fed one after the other.
ghost use Rattle.std.specs.Prelude.{◌≡◌, List, length, IfOk};
ghost use Rattle.texml_token.specs.Numbers.{Table, Extends, TokenWithin};
ghost use Rattle.texml_token.specs.declared.tokens.Token.{Token as TokenCode};
ghost use Rattle.texml_expand.specs.declared.feeding.Verdict.{Verdict as VerdictOf};
ghost use Rattle.texml_expand.specs.Feeding.{IsFed};

use std::alloc::AllocError;
use texml_token::{Names, Token};

/// What a list of tokens decides: it is too short, or a value, or the fault of this number.
#[derive(Debug, Drop)]
pub enum Verdict<V> {
    TooShort,
    Yields(V),
    Refuses(u8),
}

/// Decides by the tokens that it is fed, the first of them first. Once it has decided it is not to be fed again.
pub trait Feeder<V> {
    /// What a list of tokens decides that comes next, by the texts of their names.
    ghost judge: { Self → Table → List TokenCode → VerdictOf V };

    /// Feeds it the next token.
    ///
    /// # Errors
    ///
    /// `AllocError` where there is no memory.
    fn feed(&mut self, token: Token, names: &Names) -> Result<Verdict<V>, AllocError>
        requires { TokenWithin (length names.now) token }
        ensures { IfOk result (λ verdict. (texts : Table) → Extends names.now texts → IsFed (judge self.old) token verdict (judge self.new) texts) };
}
