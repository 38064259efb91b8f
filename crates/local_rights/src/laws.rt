//! The rights and the value here are those of the bounded counter.
ghost use Rattle.local_rights.specs.BoundedCounter.{RightsAreLocalRights, RightsNotNegative, ValueIsTheCounters};
ghost use Rattle.local_rights.specs.OpenSeats.{OpenSeatsAreTheCounters};

/// With the seats that were taken back added to those that their site released, a site's rights are
/// the local rights of the bounded counter, and the value of an event is the counter's.
pub fn rights_are_a_bounded_counter()
    ensures rights { RightsAreLocalRights }
    ensures not_negative { RightsNotNegative }
    ensures value { ValueIsTheCounters }
{}

/// The open seats of a view are the counter's value where no site's rights are negative by it, and none where some are.
pub fn open_seats_are_the_counters()
    ensures { OpenSeatsAreTheCounters }
{}
