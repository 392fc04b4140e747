//! What is proved of the order of instants, as the contract of a function.
ghost use Rattle.calendar.specs.Order.{InstantsInOrder};

/// Of two instants the one with the smaller moment is the lesser.
pub fn instants_follow_their_moments()
    ensures { InstantsInOrder }
{}
