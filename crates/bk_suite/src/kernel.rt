// Runs whose reports were worked out by hand from the tables of the processor, of the kernel calls and of the report.

mod faults;
mod lines;
mod runs;
mod windows;

/// Access modes.
const R: u8 = 1;

const E: u8 = 2;

const W: u8 = 4;
