// A heap serves the offsets 0 to 4,095.
pub const HEAP_BYTES: u64 = 4096;
