//! Laws of the definitions of execution.
ghost use Rattle.texml_token.specs.Token.{Token};
ghost use Rattle.texml_expand.specs.Laws.{Decides, Agrees};
ghost use Rattle.texml_assign.specs.Execute.{execute};

/// From each state some depth of the definitions decides what a token does, and all depths that decide give the same.
pub fn execution_decides()
    ensures decides { (t : Token) → Decides (execute t) }
    ensures once { (t : Token) → Agrees (execute t) }
{}
