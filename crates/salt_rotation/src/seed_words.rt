ghost use Rattle.std.specs.Prelude.{◌≡◌, length};
ghost use Rattle.salt_rotation.specs.SeedWords.{seed_bytes};

use rand_chacha::ChaCha20Rng;
use rand_core::SeedableRng;
use rand_core::utils::fill_bytes_via_u32;
use std::marker::Model;

/// The 32-bit words of a seed of 32 bytes, by place.
///
/// A contract sees it as the list of the seed's bytes.
#[derive(Clone, Copy)]
pub struct SeedWords {
    seed: [u8; 32],
}

impl Model for SeedWords {
    ghost use Rattle.std.specs.Prelude.{ℕ, List};

    ghost Value = { List ℕ };

    ghost view = { λ words. words.seed };

    ghost inverse = { λ seed. record { seed = seed } };
}

impl SeedWords {
    /// The words of this seed.
    #[inline]
    pub fn new(seed: [u8; 32]) -> SeedWords
        ensures { result ≡ seed }
    {
        SeedWords { seed }
    }

    /// Fills `out` with the bytes of the words from a place on, the least significant byte of a word first.
    pub fn fill(&self, place: u64, out: &mut [u8])
        ensures { out.new ≡ seed_bytes self.now place (length out.old) }
    {
        let mut stream = ChaCha20Rng::from_seed(self.seed);
        stream.set_word_pos(u128::from(place));
        fill_bytes_via_u32(&mut stream, out);
    }
}
