//! What the answers of a shared set are in each history of one plain set. Laws have no run-time
//! effect.
ghost use Rattle.nm_shared.specs.Sharing.{CallsOfOneCallerAreInOrder, ShownCallsAreApart};

/// Law: two calls by one caller, the one after the other, are acts in this order in each history of
/// all turns that extend what the caller has seen, also if they were made by different workers.
pub fn calls_of_one_caller_are_in_order()
    ensures { CallsOfOneCallerAreInOrder }
{}

/// Law: two visits that a caller is shown to be apart, whichever threads made them, are two
/// different acts in each history of all turns that extend what both left.
pub fn shown_calls_are_apart()
    ensures { ShownCallsAreApart }
{}
