// The limits of plans and memories, each in its one place.

/// The largest number of nodes that a plan may have.
pub const MAX_NODES: usize = 64;

/// The largest kind of a macro; the smallest is 1.
pub const MAX_KIND: u8 = 15;

/// The largest number of read ports, and of write ports, of a memory; the smallest is 1.
pub const MAX_PORTS: u8 = 16;

/// The largest depth of a memory; the smallest is 1.
pub const MAX_DEPTH: u32 = 65_536;

/// The largest depth of a live-value table.
pub const MAX_MARKS: u32 = 1_024;
