// Limits of a head and its files.

/// How many files a head has at most.
pub(crate) const MAX_FILES: u64 = 1024;

/// The greatest number of an object.
pub(crate) const MAX_OBJECT: u64 = 16_777_216;

/// How many bytes a file has at most.
pub(crate) const MAX_LENGTH: u64 = 4_294_967_296;

/// The greatest number of blocks that an entry of the log tells.
pub(crate) const MAX_PUTS: u64 = 4_294_967_295;
