//! The numbers that cross to C: what a call answers, and what it is asked for.

/// What was asked for is written.
pub const DONE: u8 = 0;

/// The text is refused: why is written.
pub const REFUSED: u8 = 1;

/// The buffer is too short: the length that is needed is written.
pub const TOO_SHORT: u8 = 2;

/// The bytes of the text aren't UTF-8: the length of their longest front that is stands as the offset of a refusal without a kind.
pub const NOT_UTF8: u8 = 3;

/// Memory ran out: nothing is written.
pub const NO_MEMORY: u8 = 4;

/// The flags aren't defined: nothing is written.
pub const BAD_FLAGS: u8 = 5;

/// No refusal has this kind: nothing is written.
pub const NO_KIND: u8 = 6;

/// The flag by which references are read in their older forms too.
pub const LEGACY: u32 = 1;
