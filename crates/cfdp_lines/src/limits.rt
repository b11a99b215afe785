//! The limits of a script, and the octets that have a meaning in it.

/// The longest script, in octets.
pub const INPUT_LIMIT: usize = 268_435_456;

/// The longest line, in octets.
pub const LINE_LIMIT: usize = 200_000;

/// The octet that ends a line.
pub const NEWLINE: u8 = b'\n';

/// The octet with which a comment begins. A line that begins with it has no effect.
pub const COMMENT: u8 = b'#';
