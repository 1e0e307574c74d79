//! What is wrong with bytes that begin with no opaque data.
ghost use Rattle.rb_promises.specs.Contents.{ContentsFaultExactly};

/// Opaque data of at most this many bytes (RFC 4506 section 4.10) is Short exactly if there are too few bytes for its
/// count, or, if the count is within the limit, for its content and residual bytes; TooLong exactly if the count is
/// above the limit; and BadPadding exactly if the count is within the limit, all bytes are there, and a residual one is
/// not zero.
pub fn contents_fault_exactly()
    ensures { ContentsFaultExactly }
{}
