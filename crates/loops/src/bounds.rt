// The most of each table and count (document 01, "Tables and their bounds"), and of a corridor's own cap (document 02, K5).

pub const MOST_LEVELS: usize = 5;

pub const MOST_BUSES: usize = 256;

pub const MOST_GENERATORS: usize = 128;

pub const MOST_CORRIDORS: usize = 256;

// Circuits: a target, and those of a corridor to begin with.
pub const MOST_TARGET: u32 = 65536;

pub const MOST_INITIAL: u32 = 64;

pub const MOST_CAP: u32 = 6;
