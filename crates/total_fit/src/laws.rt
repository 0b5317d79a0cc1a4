//! What holds of the plans of all paragraphs. Each function is empty and carries one law.

ghost use Rattle.total_fit.specs.Laws.{AreRestAfter, BestGoesOn, BestIsOfRest, HasBestOrNone, HasOneBest};
ghost use Rattle.total_fit.specs.Laws.{PotentialsAreOfRest, RestOfBestIsBest};

/// A paragraph has at most one best plan.
pub fn best_is_one()
    ensures { HasOneBest }
{}

/// A paragraph has a best plan, or no plan.
pub fn best_is_there()
    ensures { HasBestOrNone }
{}

/// A best plan is, from each of its ends on, the best one from there on.
pub fn best_goes_on()
    ensures { BestGoesOn }
{}

/// The best plan from a stop on is the best plan of the rest of the paragraph.
pub fn best_is_of_rest()
    ensures { BestIsOfRest }
{}

/// The potentials from a stop on are those of the rest of the paragraph.
pub fn potentials_are_of_rest()
    ensures { PotentialsAreOfRest }
{}

/// The stops after a stop, measured from where its line begins, are the rest of the paragraph.
pub fn rest_is_after()
    ensures { AreRestAfter }
{}

/// The rest of a best plan, from its first end on, is the best plan of the rest of the paragraph.
pub fn rest_of_best_is_best()
    ensures { RestOfBestIsBest }
{}
