// What a write answers.

/// What a write sealed: how many blocks, and the number of the salt of the last of them, 0 where there is none.
#[derive(Clone, Copy, Debug, PartialEq, Eq)]
pub struct Wrote {
    pub blocks: u32,
    pub number: u64,
}
