//! How large a document may be.

/// The most objects of a document.
pub const MOST_OBJECTS: u32 = 4096;

/// The most slots of a document.
pub const MOST_SLOTS: u32 = 65_536;

/// The most nodes of all expressions of a document.
pub const MOST_NODES: u32 = 262_144;

/// The most dependencies of all slots of a document.
pub const MOST_DEPENDENCIES: u64 = 4_194_304;
