//! A law of documents, for the layers above. The function is empty and carries it.

ghost use Rattle.dom.specs.Order.{FirstIsOne};

/// What `by_id` answers is the one answer that its clause allows.
pub fn first_of_id_is_one()
    ensures { FirstIsOne }
{}
