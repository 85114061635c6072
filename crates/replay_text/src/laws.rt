//! Laws of the text of saved runs. Each law is the contract of a function that does nothing.

ghost use Rattle.replay_text.specs.Laws.{EachFaultIsFirst, EachHasOneText, EachIsWithinLimits};

/// Each saved run within the limits has one text, which reads as it, and each run that is read is within them.
pub fn both_ways()
    ensures one { EachHasOneText }
    ensures within { EachIsWithinLimits }
{}

/// A text reads as a fault exactly where that is the first from the front.
pub fn first_fault()
    ensures { EachFaultIsFirst }
{}
