//! Which events are refused.
ghost use Rattle.rb_promises.specs.Refusals.{RefusalsAreTheNamedOnes, TooMuchIsTheNamedOne};

/// From every state: an opening is refused as Full exactly if there are as many connections as there may be, Lost
/// ones among them, and as Spent exactly if there is room and no number is left. Bytes, a look at what is pending
/// and bytes that were given are Gone exactly if no live connection has their number; a close if no connection has it;
/// and the sending of a forwarded call if none of its number is unsent. No other event is refused, and none for want
/// of memory or for bad limits. More than is pending is told exactly if more was given on a live connection.
pub fn refusals_are_the_named_ones()
    ensures refused { RefusalsAreTheNamedOnes }
    ensures too_much { TooMuchIsTheNamedOne }
{}
