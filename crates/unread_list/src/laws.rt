//! Laws of what is found.

ghost use Rattle.unread_list.specs.Families.{UnreadIsFound};

/// Law: the parts without a reading among what is found in a sheet are all of its parts that have none, and no other.
pub fn unread_is_found()
    ensures { UnreadIsFound }
{}
