ghost use Rattle.kv_fold.specs.Laws.{OrderIsFree, ResultsAreFolds, TotalsFit, TakesLongest};

/// Lists of the same items with distinct keys have one state, whatever their order.
pub fn order_is_free()
    ensures { OrderIsFree }
{}

/// What a state answers is the fold of the plain list of any bag that it stands for.
pub fn results_are_folds()
    ensures { ResultsAreFolds }
{}

/// No sum over fewer than 2^32 items of the sizes that a store takes reaches 2^64.
pub fn totals_fit()
    ensures { TotalsFit }
{}

/// The prefix that the fold of the first items takes is the longest that fits.
pub fn takes_longest()
    ensures { TakesLongest }
{}
