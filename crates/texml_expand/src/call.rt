//! The arguments of a call, and a body with them in their places.
ghost use Rattle.std.specs.Prelude.{◌≡◌, ◌++◌, IfOk, OnOk, option_to_list};
ghost use Rattle.texml_input.specs.Put.{argument, code_slot, replaced, put_code};

use std::alloc::{AllocError, Global};
use texml_match::Args;
use texml_token::{Token, Tokens};

/// The arguments of a call: the first where it has a default, and the others.
///
/// # Errors
///
/// `AllocError` where there is no memory.
pub(crate) fn joined(
    alloc: Global,
    first: Option<Tokens>,
    others: &Args,
) -> Result<Vec<Tokens>, AllocError>
    ensures { IfOk result (λ args. args.items ≡ option_to_list first ++ others.now) }
{
    let mut args = others.as_slice().to_vec(alloc)?;
    if let Some(first) = first {
        args.insert(0, first)?;
    }
    Ok(args)
}

/// A body with the arguments of its call in their places.
///
/// # Errors
///
/// `AllocError` where there is no memory.
pub(crate) fn fill(alloc: Global, body: &[Token], args: &[Tokens]) -> Result<Tokens, AllocError>
    ensures { IfOk result (λ list. list ≡ put_code args.now body.now) }
{
    let mut list = Tokens::new(alloc);
    let mut rest = body;
    while let [token, behind @ ..] = rest {
        push_filled(&mut list, *token, args)?;
        rest = behind;
    }
    Ok(list)
}

// Appends a token, or the argument whose place it is.
fn push_filled(list: &mut Tokens, token: Token, args: &[Tokens]) -> Result<(), AllocError>
    ensures { OnOk result (list.new ≡ list.old ++ replaced args.now token (code_slot token)) }
{
    match token {
        Token::Param(number) => append(list, argument(args, number)),
        Token::Char(_, _) => list.push(token),
        Token::Active(_) => list.push(token),
        Token::Named(_) => list.push(token),
    }
}

// The argument of a number, from 1 on. One that isn't there is empty.
fn argument(args: &[Tokens], number: u8) -> &[Token]
    ensures { result.now ≡ argument args.now number }
{
    if number == 0 {
        return &[];
    }
    match args.get(usize::from(number) - 1) {
        None => &[],
        Some(list) => list.as_slice(),
    }
}

// Appends tokens.
fn append(list: &mut Tokens, tokens: &[Token]) -> Result<(), AllocError>
    ensures { OnOk result (list.new ≡ list.old ++ tokens.now) }
{
    let mut rest = tokens;
    while let [token, behind @ ..] = rest {
        list.push(*token)?;
        rest = behind;
    }
    Ok(())
}
