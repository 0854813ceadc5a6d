/// The most bytes that the head of a request may have, its last line end included.
pub const HEAD_BYTES: usize = 8_192;

/// The most header lines that a head may have.
pub const HEAD_LINES: usize = 64;

/// The most bytes that the body of a request may have.
pub const BODY_BYTES: usize = 65_536;
