//! The limits of a tablet.

/// The most bytes that a script may have.
pub const SCRIPT_BYTES: usize = 67_108_864;
/// The most commands of a script, over all sessions.
pub const COMMANDS: usize = 262_144;
/// The most sessions of a script.
pub const SESSIONS: usize = 64;
/// The most columns of a table.
pub const COLUMNS: usize = 300;
/// The most characters of a column's name.
pub const NAME_LEN: usize = 64;
/// The most bytes of a cell.
pub const CELL_LEN: usize = 65_536;
/// The most bytes of an encoded key.
pub const KEY_LEN: usize = 16_384;
/// The most operations of a write.
pub const OPERATIONS: usize = 64;
/// The most workers.
pub const WORKERS: u32 = 4;
/// The fewest cells of the pool that can be asked for.
pub const POOL_LEAST: u32 = 1_024;
/// The most cells of the pool that can be asked for.
pub const POOL_MOST: u32 = 4_194_304;
/// The cells of the pool where none are asked for.
pub const POOL_CELLS: u32 = 262_144;
/// The latest time that a scan or a mark may name.
pub const TIME_MOST: u64 = 1 << 62;
/// A reading of the clock above this counts as this, in microseconds.
pub const READING_MOST: u64 = (1 << 50) - 1;
