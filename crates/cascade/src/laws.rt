//! Laws of winners, for the crates above. The function is empty and carries its law.

ghost use Rattle.cascade.specs.Laws.{OneWins, WinnersAreOne};

/// Of the declarations of a longhand one wins, where rules at one place are one rule.
pub fn one_wins()
    ensures { OneWins }
{}

/// What wins for a node, or for a pseudo-element of it, is one list.
pub fn winners_are_one()
    ensures { WinnersAreOne }
{}
