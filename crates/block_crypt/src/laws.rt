// The law of the definitions. The function does nothing.
ghost use Rattle.std.specs.Prelude.{◌<◌, ℕ, List, slice_index};
ghost use Rattle.block_crypt.specs.Blocks.{KeyValue, sealed_block};

/// A sealed text of bytes is one of bytes, and each tag is, under every key, salt and initialization vector.
pub fn sealed_blocks_are_bytes()
    ensures text { (key : KeyValue) (salt iv text : List ℕ) → ((i : ℕ) → slice_index text i < 256)
        → (i : ℕ) → slice_index (sealed_block key salt iv text).0 i < 256 }
    ensures tag { (key : KeyValue) (salt iv text : List ℕ)
        → (i : ℕ) → slice_index (sealed_block key salt iv text).1 i < 256 }
{}
