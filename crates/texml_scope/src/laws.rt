//! A law of the definitions, which the table of builtins must keep.
ghost use Rattle.std.specs.Prelude.{◌≡◌};
ghost use Rattle.texml_scope.specs.Builtins.{table};
ghost use Rattle.texml_scope.specs.Written.{written};

/// The table of builtins is the one that the definitions write out.
pub fn builtins_are_written()
    ensures { table ≡ written }
{}
