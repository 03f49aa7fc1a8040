// How long the box waits (ours), in milliseconds: for the answer to a request, and for a trailer as a whole.
pub(crate) const REQUEST_TIME: u64 = 2000;

pub(crate) const TRAILER_TIME: u64 = 60000;
