// How large objects can be.

/// Bytes of a block.
pub const BYTES_OF_BLOCK: u16 = 64;

/// Words of a block.
pub const WORDS_OF_BLOCK: u16 = 32;

/// Blocks of a segment, at most.
pub const MOST_BLOCKS: u8 = 128;

/// A quota, at most: what is left of core beside the kernel's blocks, of 3,968 in all.
pub const LARGEST_QUOTA: u16 = 3904;
