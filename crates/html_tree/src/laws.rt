//! Laws of the tree, for the layers above. Each function is empty and carries one law.

ghost use Rattle.html_tree.specs.Open.{KeptIsInnermost, AllIsKept, OpenIsOpened, OpenIsPath, NodesAreAdded, ParentIsLastOpened, TreeIsLastState};
ghost use Rattle.html_tree.specs.Order.{TextsAreInOrder, TextsAreTrees, TreeOrderIsNumberOrder};

/// What closes is the innermost of a row's elements that has none of those inside it that keep it open; nothing closes
/// exactly where there is none.
pub fn kept_is_innermost()
    ensures some { KeptIsInnermost }
    ensures none { AllIsKept }
{}

/// What is open at a token was opened by an earlier token and closed by none between, and what was opened so is open.
/// Each open element is the parent of the next.
pub fn open_is_opened()
    ensures open { OpenIsOpened }
    ensures path { OpenIsPath }
{}

/// Each node but node 0 was added by a token, and its parent is the last opened element that is open after that token's
/// closings, or node 0 where none is.
pub fn parent_is_last_opened()
    ensures added { NodesAreAdded }
    ensures parent { ParentIsLastOpened }
    ensures tree { TreeIsLastState }
{}

/// In a tree that is read one node comes after another in tree order exactly where its number is greater.
pub fn numbers_are_in_tree_order()
    ensures { TreeOrderIsNumberOrder }
{}

/// The nodes of a text are a tree, of at most 400,000 nodes and elements 200 deep, whose numbers are in order: what the
/// law above asks for.
pub fn texts_are_trees()
    ensures tree { TextsAreTrees }
    ensures order { TextsAreInOrder }
{}
