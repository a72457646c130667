//! What no clause says: that an input shares what it is given, and copies none of it.

ghost use Rattle.std.specs.Prelude.{◌≡◌, [], IfOk};
ghost use Rattle.std.specs.List.{All};
ghost use Rattle.texml_token.specs.Numbers.{TokenWithin, TokensWithin, BodyWithin};
ghost use Rattle.texml_input.specs.Held.{ids_of, SourcesWithin};

use std::alloc::{AllocError, Global};
use std::test::Fail;
use texml_base::CalmFiles;
use texml_input::{Input, Read};
use texml_match::Args;
use texml_scope::Scope;
use texml_token::category::LETTER;
use texml_token::{Names, Token, Tokens};

// A list of this token alone, so many times.
fn repeated(alloc: Global, token: Token, times: u32) -> Result<Tokens, AllocError>
    requires { TokenWithin 0 token }
    ensures { IfOk result (TokensWithin 0) }
{
    let mut list = Tokens::new(alloc);
    for _ in 0..times {
        list.push(token)?;
    }
    Ok(list)
}

// Pushes the body of a macro of at most one parameter so many times.
fn push_often(input: &mut Input, body: &Tokens, args: &Args, times: u32) -> Result<(), AllocError>
    requires body { BodyWithin 0 1 body.now }
    requires args { All (TokensWithin 0) args.now }
    requires ids { ids_of input.old.sources ≡ [] }
    requires within { SourcesWithin 0 input.old.sources }
    ensures ids { ids_of input.new.sources ≡ [] }
    ensures within { SourcesWithin 0 input.new.sources }
{
    for _ in 0..times {
        input.push_macro(body, args)?;
    }
    Ok(())
}

// Were they copied, there would be 4 * 10^9 tokens.
#[test]
#[tactic(auto, using(crate::proofs::Bodies::is_body))]
fn pushed_bodies_are_shared(rt: HostRuntime) -> Result<(), Fail> {
    let alloc = rt.alloc();
    let letter = Token::Char(120, LETTER);
    let body = repeated(alloc, letter, 20000)?;
    let mut input = Input::new(alloc);
    push_often(&mut input, &body, &Args::new(alloc), 200000)?;
    let scope = Scope::new(alloc);
    let mut names = Names::new(alloc);
    let mut files = CalmFiles::new(alloc, 1);
    let read = Read {
        token: letter,
        frozen: false,
        crossed: false,
    };
    assert_eq!(rt; input.next(&scope, &mut names, &mut files)?, Some(read));
    Ok(())
}
