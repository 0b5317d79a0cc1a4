//! A law of running strings. The function changes nothing.

ghost use Rattle.strings.specs.Laws.{UnaskedChangeNothing};

/// What a page shows of a string stays the same where assignments of names that aren't asked for are left out.
pub fn unasked_change_nothing()
    ensures { UnaskedChangeNothing }
{}
