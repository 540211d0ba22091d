// How much a host holds.

/// The most datasets of a host.
pub(crate) const MAX_DATASETS: usize = 256;

/// The last id that a dataset has.
pub(crate) const MAX_ID: u32 = u32::MAX;

/// The most families of a host.
pub const MAX_FAMILIES: usize = 32;
