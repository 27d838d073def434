// The limits of what is lent (17) and of what is written (14). Each is proved where it is used.

// Bytes of a document, an output or a name store.
pub const MAX_STORE: usize = 16_777_216;

// Bytes of a window.
pub const MIN_WINDOW: usize = 64;

pub const MAX_WINDOW: usize = 1_048_576;

// Words of a pool table: a pair for each name that an index can say.
pub const MAX_TABLE: usize = 131_070;

// Bytes of a string or a blob: its length is a u16.
pub const MAX_UNSIGNED_SHORT: usize = 65_535;
