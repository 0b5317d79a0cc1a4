//! Laws of the definitions.

ghost use Rattle.gen_text.specs.Content.{TextIsOne, TextIsThat};
ghost use Rattle.gen_text.specs.References.{TargetsAreOne};
ghost use Rattle.gen_text.specs.Target.{TargetIsThat};

/// Law: a document has one list of elements that page references lead to.
pub fn targets_are_one()
    ensures { TargetsAreOne }
{}

/// Law: a list of content has one text at a place.
pub fn texts_are_one()
    ensures { TextIsOne }
{}

/// Law: what a link leads to is the first element of its id in tree order, where that is shown.
pub fn targets_are_those()
    ensures { TargetIsThat }
{}

/// Law: the text of a list of content is what its parts print, joined.
pub fn texts_are_those()
    ensures { TextIsThat }
{}
