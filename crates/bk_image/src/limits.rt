// How much an image has at most.

/// Bytes.
pub(crate) const MOST_BYTES: u32 = 524_288;

/// Turns of a slot.
pub(crate) const MOST_TURNS: u16 = 4096;

/// Lines.
pub(crate) const MOST_LINES: u8 = 16;

/// Places of the schedule.
pub(crate) const MOST_PLACES: u8 = 64;

/// Objects.
pub(crate) const MOST_OBJECTS: u16 = 3904;

/// Holds.
pub(crate) const MOST_HOLDS: u16 = 65535;
