//! What is gathered of tokens that are expanded as they come.

ghost use Rattle.std.specs.Prelude.{◌≡◌, ◌==◌, ◌+◌, ◌∷◌, ◌++◌, [], ℕ, cond, IfOk, OnOk};
ghost use Rattle.std.specs.List.{All};
ghost use Rattle.std.specs.Char.{IsScalar};
ghost use Rattle.texml_token.specs.Numbers.{Table, token_at, tokens_at, TokenWithin, TokensWithin};
ghost use Rattle.texml_token.specs.Token.{has_category};
ghost use Rattle.texml_expand.specs.Braces.{closes};
ghost use Rattle.texml_expand.specs.Names.{char_code as spec_char_code, text_of as spec_text_of};
ghost use Rattle.texml_expand.specs.Gathering.{doubled_token, doubled as spec_doubled, file_part as spec_file_part};
ghost use Rattle.texml_expand.specs.Fronts.{behind_spaces};

use std::alloc::{AllocError, Global};
use std::marker::Model;
use texml_token::{Line, Token, Tokens, category};

/// What is gathered: the characters of a name up to `\endcsname`; the relation between two numbers, behind spaces; the tokens of a
/// group up to its closing brace; the characters of a file's name; or all that is left.
#[derive(Clone, Copy, Debug, PartialEq, Eq)]
pub(crate) enum Gathering {
    Name,
    Relation,
    Group,
    FileName,
    All,
}

/// The tokens that were gathered, and how many groups begin and end in them.
#[derive(Drop)]
pub(crate) struct Gathered {
    list: Tokens,
    begun: usize,
    ended: usize,
}

impl Model for Gathered {
    ghost use Rattle.std.specs.Prelude.{◌≡◌, List};
    ghost use Rattle.std.specs.List.{count_by};
    ghost use Rattle.texml_token.specs.Token.{has_category};
    ghost use Rattle.texml_token.specs.declared.category.TheConstants.{BEGIN_GROUP, END_GROUP};
    ghost use Rattle.texml_token.specs.declared.tokens.Token.{Token};
    ghost use Rattle.texml_token.specs.Numbers.{Table, tokens_at};

    ghost Value = { List Token };

    ghost view = { λ g. g.list };

    ghost invariant = { λ g. (texts : Table) → (count_by (has_category BEGIN_GROUP) (tokens_at texts g.list) ≡ g.begun) × (count_by (has_category END_GROUP) (tokens_at texts g.list) ≡ g.ended) };
}

impl Gathered {
    /// Nothing. It takes no memory.
    pub(crate) fn new(alloc: Global) -> Gathered
        ensures { result ≡ [] }
    {
        Gathered {
            list: Tokens::new(alloc),
            begun: 0,
            ended: 0,
        }
    }

    /// Whether this token closes the group that they stand in.
    pub(crate) fn closes(&self, token: Token) -> Result<bool, AllocError>
        ensures { IfOk result (λ closed. (texts : Table) → closed ≡ closes (tokens_at texts (self.now ++ token ∷ []))) }
    {
        let begun = one_more(self.begun, token, category::BEGIN_GROUP)?;
        let ended = one_more(self.ended, token, category::END_GROUP)?;
        Ok(is_next(ended, begun))
    }

    /// One more token.
    pub(crate) fn push(&mut self, token: Token) -> Result<(), AllocError>
        ensures { OnOk result (self.new ≡ self.old ++ token ∷ []) }
    {
        let begun = one_more(self.begun, token, category::BEGIN_GROUP)?;
        let ended = one_more(self.ended, token, category::END_GROUP)?;
        self.list.push(token)?;
        self.begun = begun;
        self.ended = ended;
        Ok(())
    }

    /// These tokens.
    pub(crate) fn extend(&mut self, list: &Tokens) -> Result<(), AllocError>
        ensures { OnOk result (self.new ≡ self.old ++ list.now) }
    {
        for token in list.as_slice() {
            self.push(*token)?;
        }
        Ok(())
    }

    /// The name of a file: what stands behind the spaces before it.
    pub(crate) fn file_part(&self, alloc: Global) -> Result<Tokens, AllocError>
        ensures is { IfOk result (λ list. (texts : Table) → tokens_at texts list ≡ spec_file_part (tokens_at texts self.now)) }
        ensures within { IfOk result (λ list. (count : ℕ) → TokensWithin count self.now → TokensWithin count list) }
    {
        let mut name = Tokens::new(alloc);
        for token in self.list.as_slice() {
            push_behind_spaces(&mut name, *token)?;
        }
        Ok(name)
    }

    /// All of them.
    pub(crate) fn tokens(&self) -> Result<Tokens, AllocError>
        ensures { IfOk result (λ list. list ≡ self.now) }
    {
        self.list.clone()
    }
}

// One token more, unless it is a space before all others.
fn push_behind_spaces(name: &mut Tokens, token: Token) -> Result<(), AllocError>
    ensures is { OnOk result ((texts : Table) → tokens_at texts name.new ≡ behind_spaces (tokens_at texts name.old) (token_at texts token)) }
    ensures within { OnOk result ((count : ℕ) → TokenWithin count token → TokensWithin count name.old → TokensWithin count name.new) }
{
    if name.as_slice().is_empty() && token.has_category(category::SPACE) {
        return Ok(());
    }
    name.push(token)
}

// A number of tokens of a category, with one token more.
fn one_more(count: usize, token: Token, category: u8) -> Result<usize, AllocError>
    ensures { IfOk result (λ n. (texts : Table) → n ≡ count + cond (has_category category (token_at texts token)) 1 0) }
{
    if token.has_category(category) {
        count.checked_add(1).ok_or(AllocError)
    } else {
        Ok(count)
    }
}

// Whether a number is the one behind another.
fn is_next(number: usize, before: usize) -> bool
    ensures { result ≡ (number == before + 1) }
{
    number > before && number - before == 1
}

/// The text of characters.
pub(crate) fn text_of(alloc: Global, list: &[Token]) -> Result<Line, AllocError>
    ensures is { IfOk result (λ line. (texts : Table) → line ≡ spec_text_of (tokens_at texts list.now)) }
    ensures scalars { IfOk result (λ line. (count : ℕ) → TokensWithin count list.now → All IsScalar line) }
{
    let mut line = Line::new(alloc);
    for token in list {
        line.push(char_code(*token))?;
    }
    Ok(line)
}

// The code of a character.
fn char_code(token: Token) -> u32
    ensures is { (texts : Table) → result ≡ spec_char_code (token_at texts token) }
    ensures scalar { (count : ℕ) → TokenWithin count token → IsScalar result }
{
    match token {
        Token::Char(code, _) => code,
        _ => 0,
    }
}

/// Tokens with each parameter character twice.
pub(crate) fn doubled(alloc: Global, list: &[Token]) -> Result<Tokens, AllocError>
    ensures is { IfOk result (λ twice. (texts : Table) → tokens_at texts twice ≡ spec_doubled (tokens_at texts list.now)) }
    ensures within { IfOk result (λ twice. (count : ℕ) → TokensWithin count list.now → TokensWithin count twice) }
{
    let mut twice = Tokens::new(alloc);
    for token in list {
        push_doubled(&mut twice, *token)?;
    }
    Ok(twice)
}

// One token more, or twice where it is a parameter character.
fn push_doubled(list: &mut Tokens, token: Token) -> Result<(), AllocError>
    ensures is { OnOk result ((texts : Table) → tokens_at texts list.new ≡ tokens_at texts list.old ++ doubled_token (token_at texts token)) }
    ensures within { OnOk result ((count : ℕ) → TokenWithin count token → TokensWithin count list.old → TokensWithin count list.new) }
{
    list.push(token)?;
    if token.has_category(category::PARAMETER) {
        list.push(token)?;
    }
    Ok(())
}
