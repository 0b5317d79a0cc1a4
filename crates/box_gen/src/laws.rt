//! A law of flows, and the flows of small documents, which show what the definitions say. Each function is empty and
//! carries one.

ghost use Rattle.box_gen.specs.Elements.{ElementsHaveStarts};
ghost use Rattle.box_gen.specs.Examples.{Collapses, Hyphenates, PartsText};
ghost use Rattle.box_gen.specs.Hyphens.{OthersStay, RunsAreCollapsed, RunsAreHyphenated};
ghost use Rattle.box_gen.specs.Order.{StartsNeverFall};
ghost use Rattle.box_gen.specs.Bodies.{WalkBuildsFlow};

/// `<div>a<p>b</p>c</div>` has three leaves, the first and the last of them in anonymous boxes.
pub fn blocks_part_text()
    ensures { PartsText }
{}

/// `<p> a <b> b</b></p>` has the text `a b`, and a tab in `pre` is eight spaces.
pub fn white_space_collapses()
    ensures { Collapses }
{}

/// `<p>hy<b>phenation</b></p>` with the points 2 and 6 has U+00AD there, the first of them before `b` begins, in the
/// span of `hy`.
pub fn words_are_hyphenated()
    ensures { Hyphenates }
{}

/// Law: the text of a run by patterns is its text without them, with U+00AD at the points of its words, and nowhere
/// else.
pub fn runs_are_hyphenated()
    ensures { RunsAreHyphenated }
{}

/// Law: a run in which no text is hyphenated is the same as without patterns.
pub fn others_stay()
    ensures { OthersStay }
{}

/// Law: without patterns a run prints what the collapsing of its white space leaves.
pub fn runs_are_collapsed()
    ensures { RunsAreCollapsed }
{}

/// Law: two walks over the nodes, one of them in notes, with a stack of the open blocks each and no look ahead, build
/// the main tree and the bodies of notes.
pub fn a_walk_builds_the_flow()
    ensures { WalkBuildsFlow }
{}

/// Law: the places at which elements begin never fall along their list.
pub fn starts_never_fall()
    ensures { StartsNeverFall }
{}

/// Law: each shown element has exactly one start, in the main tree or in a note, and nothing else has one.
pub fn elements_have_starts()
    ensures { ElementsHaveStarts }
{}
