//! The law of lists by names. The function is empty and carries it.

ghost use Rattle.named_lists.specs.Lists.{AreOfNames};

/// The list of a name has what was added under the name, in order.
pub fn lists_are_of_names<T>()
    ensures { AreOfNames T }
{}
