// The parts of a slot, and the words that they make.
ghost use Rattle.std.specs.Prelude.{◌≡◌, ◌≤◌, ◌<◌, ◌^◌, ℕ, true, false};
ghost use Rattle.mapping_words.specs.Words.{word_of, count_in};
ghost use Rattle.mapping_words.specs.declared.slot.Slot.{Slot as SlotParts};

/// The last generation of a slot. A slot that was opened under it is never opened again.
pub const LAST_GENERATION: u32 = 1_073_741_823;

const _: () = prove!(LAST_GENERATION == 1_073_741_823);

const OPEN: u64 = 1 << 32;

const MOUNTED: u64 = 1 << 33;

const GENERATION: u64 = 1 << 34;

/// The parts of a slot beside its count.
#[derive(Clone, Copy, Debug, PartialEq, Eq)]
pub struct Slot {
    /// How often the slot was opened, at most `LAST_GENERATION`.
    pub generation: u32,
    pub is_open: bool,
    pub is_mounted: bool,
}

impl Slot {
    /// A slot that is closed and was never opened.
    pub(crate) const FRESH: Slot = Slot {
        generation: 0,
        is_open: false,
        is_mounted: false,
    };

    /// The slot's word, which has this count: bits 0 to 31 are the count, bit 32 says open, bit 33 mounted, and bits
    /// 34 to 63 are the generation.
    pub fn word(&self, count: u32) -> u64
        requires { self.now.generation ≤ LAST_GENERATION }
        ensures { result ≡ word_of self.now count }
    {
        let open = if self.is_open { OPEN } else { 0 };
        let mounted = if self.is_mounted { MOUNTED } else { 0 };
        u64::from(count) + open + mounted + u64::from(self.generation) * GENERATION
    }
}

/// The slot is in use: the word that a close found.
#[derive(Clone, Copy, Debug, PartialEq, Eq)]
pub struct InUse {
    pub word: u64,
}

impl InUse {
    /// How many use the slot, by the word that was found.
    pub fn count(&self) -> u32
        ensures { result ≡ count_in self.now.word }
    {
        (self.word % OPEN) as u32
    }
}

/// A close that was refused: its slot, and the word that it found.
#[derive(Clone, Copy, Debug, PartialEq, Eq)]
pub struct RefusedClose {
    pub slot: u32,
    pub word: u64,
}

/// What numbers words have, and that a word tells its count and its parts: a law, which does nothing.
pub fn words_have_their_parts()
    ensures mounted { word_of (record { generation = 1; is_open = true; is_mounted = true }) 1 ≡ 30064771073 }
    ensures closed { word_of (record { generation = 1; is_open = false; is_mounted = false }) 0 ≡ 17179869184 }
    ensures again { word_of (record { generation = 2; is_open = true; is_mounted = true }) 1 ≡ 47244640257 }
    ensures count { (slot : SlotParts) (count : ℕ) → count < 2 ^ 32 → count_in (word_of slot count) ≡ count }
    ensures parts { (slot other : SlotParts) (count more : ℕ) → count < 2 ^ 32 → more < 2 ^ 32
        → word_of slot count ≡ word_of other more → slot ≡ other }
{}
