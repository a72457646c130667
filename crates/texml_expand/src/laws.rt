//! Laws of the definitions of fetching and expanding.
ghost use Rattle.texml_expand.specs.Laws.{AlwaysDecide, DecideOnce, NeedNoBound};

/// From each state some depth of the definitions decides: fetching and expanding end.
pub fn always_decides()
    ensures { AlwaysDecide }
{}

/// All depths that decide give the same: what fetching and expanding give is one thing.
pub fn decides_once()
    ensures { DecideOnce }
{}

/// The bounds on turns with which some readings are written are never reached: they are what they would be without one.
pub fn readings_need_no_bound()
    ensures { NeedNoBound }
{}
