ghost use Rattle.std.specs.Prelude.{◌≡◌, ◌+◌, ◌*◌, ◌^◌, ◌<◌, ◌≤◌};
ghost use Rattle.salt_rotation.specs.Salts.{salt_of, drawn};

use crate::seed_words::SeedWords;
use rand_chacha::ChaCha20Rng;
use rand_core::SeedableRng;
use rand_core::utils::fill_bytes_via_u32;
use std::alloc::AllocError;
use std::marker::Model;

/// The largest number of draws that one salt may serve.
pub const MAX_SALT_USES: u64 = 400_000_000;

/// How many draws a seed gives at most.
pub const MAX_DRAWS: u64 = 1 << 48;

const _: () = prove!(MAX_SALT_USES == 400_000_000 && MAX_DRAWS == 281_474_976_710_656);

// The place of the first initialization vector's first word.
const FIRST_IV_PLACE: u64 = 1 << 60;

// The words of a salt, and of an initialization vector.
const SALT_WORDS: u64 = 2;

const IV_WORDS: u64 = 3;

/// What one draw gives for one block.
#[derive(Clone, Copy, Debug, PartialEq, Eq)]
pub struct Drawn {
    /// The number of the draw, from 0.
    pub index: u64,
    /// The number of the salt, from 0.
    pub number: u64,
    pub salt: [u8; 8],
    pub iv: [u8; 12],
}

/// A source of salts and initialization vectors.
///
/// A contract sees it as its seed, the number of draws that a salt serves, and the number of draws
/// that were made.
#[derive(Drop)]
pub struct Salts {
    seed: [u8; 32],
    limit: u64,
    made: u64,
    // The key stream, at the vector of the next draw.
    ivs: ChaCha20Rng,
    // The salt that was computed last, and its number.
    number: u64,
    salt: [u8; 8],
}

impl Model for Salts {
    ghost use Rattle.salt_rotation.specs.SaltState.{SaltState};

    ghost Value = { SaltState };

    ghost use Rattle.salt_rotation.specs.SaltsFields.{IsReady};

    ghost view = { λ s. record { seed = s.seed; limit = s.limit; made = s.made } };

    ghost invariant = { IsReady };
}

impl Salts {
    /// The source of salts of a fresh seed. Each salt serves `limit` draws.
    pub fn new(seed: [u8; 32], limit: u64) -> Salts
        requires positive { 0 < limit }
        requires fits { limit ≤ MAX_SALT_USES }
        ensures { result ≡ record { seed = seed; limit = limit; made = 0 } }
    {
        Salts::resume(seed, limit, 0)
    }

    /// The source of salts of a seed of which `made` draws were made before.
    pub fn resume(seed: [u8; 32], limit: u64, made: u64) -> Salts
        requires positive { 0 < limit }
        requires fits { limit ≤ MAX_SALT_USES }
        requires draws { made ≤ MAX_DRAWS }
        ensures { result ≡ record { seed = seed; limit = limit; made = made } }
    {
        let mut ivs = ChaCha20Rng::from_seed(seed);
        ivs.set_word_pos(u128::from(FIRST_IV_PLACE + IV_WORDS * made));
        let number = made / limit;
        Salts {
            seed,
            limit,
            made,
            ivs,
            number,
            salt: salt_at(seed, number),
        }
    }

    /// How many draws were made.
    #[inline]
    pub fn made(&self) -> u64
        ensures value { result ≡ self.now.made }
        ensures bound { result ≤ MAX_DRAWS }
    {
        self.made
    }

    /// The next draw.
    pub fn draw(&mut self) -> Drawn
        requires { self.old.made < MAX_DRAWS }
        ensures value { result ≡ drawn self.old.seed self.old.limit self.old.made }
        ensures after { self.new ≡ record self.old { made = self.old.made + 1 } }
    {
        let index = self.made;
        let number = index / self.limit;
        self.salt = kept_or_computed(self.salt, self.number, self.seed, number);
        self.number = number;
        let mut iv = [0; 12];
        fill_bytes_via_u32(&mut self.ivs, &mut iv);
        self.made += 1;
        Drawn {
            index,
            number,
            salt: self.salt,
            iv,
        }
    }
}

impl Clone for Salts {
    ghost use Rattle.std.specs.Prelude.{◌≡◌, ⊤};

    ghost is_clone = { λ x y. y ≡ x };

    ghost is_infallible = { λ _. ⊤ };

    fn clone(&self) -> Result<Self, AllocError> {
        Ok(Salts {
            seed: self.seed,
            limit: self.limit,
            made: self.made,
            ivs: self.ivs.clone()?,
            number: self.number,
            salt: self.salt,
        })
    }
}

// Two sources are equal where they give the same draws from now on, by the same limit.
impl PartialEq for Salts {
    ghost use Rattle.std.proofs.Common.{rules};
    ghost use Rattle.std.specs.Cmp.Rules.{comparing};
    ghost use Rattle.salt_rotation.specs.SaltState.{salt_state_eq};

    ghost eq = { salt_state_eq };

    ghost laws = { Prim.search (comparing, rules) };

    fn eq(&self, other: &Self) -> bool {
        self.seed == other.seed && self.limit == other.limit && self.made == other.made
    }
}

impl Eq for Salts {
    ghost use Rattle.std.proofs.Common.{rules};
    ghost use Rattle.std.specs.Cmp.Rules.{comparing};

    ghost laws = { Prim.search (comparing, rules) };
}

// A salt, by its number.
#[tactic(auto, unfolding(crate::specs::Salts::salt_of))]
fn salt_at(seed: [u8; 32], number: u64) -> [u8; 8]
    requires { number ≤ MAX_DRAWS }
    ensures { result ≡ salt_of seed number }
{
    let mut salt = [0; 8];
    SeedWords::new(seed).fill(SALT_WORDS * number, &mut salt);
    salt
}

// A salt, by its number. It is computed only where it isn't the one that is kept.
fn kept_or_computed(kept: [u8; 8], kept_number: u64, seed: [u8; 32], number: u64) -> [u8; 8]
    requires is_kept { kept ≡ salt_of seed kept_number }
    requires fits { number ≤ MAX_DRAWS }
    ensures { result ≡ salt_of seed number }
{
    if number == kept_number {
        kept
    } else {
        salt_at(seed, number)
    }
}
