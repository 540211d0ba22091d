// New texts of blocks are sealed and put.
ghost use Rattle.std.specs.Prelude.{◌≡◌, ◌<◌, ◌≤◌, ◌+◌, ◌++◌, ◌∷◌, ℕ, List, [], All, IfErr, IfOk, OnErr, OnOk, Result, Some, length, slice_index_or};
ghost use Rattle.block_crypt.specs.Blocks.{KeyValue};
ghost use Rattle.salt_rotation.specs.SaltState.{SaltState};
ghost use Rattle.shelf_store.specs.ShelfState.{ShelfState, counted};
ghost use Rattle.indirect_macs.specs.Steps.{HasPut, Puts};
ghost use Rattle.file_blocks.specs.Changes.{HasDraws, HasSealed, Seals, after_draws, last_number, next_draw, ref_under, refs_to, sealed_texts, sealed_under};

use block_crypt::{BlockKey, MAX_BLOCK_LEN, Sealed, seal_block};
use indirect_macs::{BlockRef, MacError, put};
use salt_rotation::{MAX_DRAWS, Salts};
use shelf_store::Shelf;
use std::alloc::Global;

/// New texts of blocks that lie one after another.
pub(crate) trait Texts {
    ghost told: { Self → List (List ℕ) };

    /// How many texts there are.
    fn count(&self) -> u32
        ensures { result ≡ length (told self.now) };

    /// Puts the text of this place into `out`, in place of what is there. `NoMemory` is its only error.
    fn text_into(&self, at: u32, out: &mut Vec<u8>) -> Result<(), MacError>
        requires within { at < length (told self.now) }
        ensures text { OnOk result (out.new.items ≡ slice_index_or (told self.now) at []) }
        ensures stop { IfErr result (λ stop. stop ≡ MacError.NoMemory) };
}

/// References to texts that were put, and the number of the salt of the last of them.
#[derive(Drop)]
pub(crate) struct Placed {
    pub refs: Vec<Option<BlockRef>>,
    pub last_number: Option<u64>,
}

fn ref_to(size: u32, addr: u64, sealed: &Sealed) -> BlockRef
    ensures { result ≡ record {
      size = size;
      addr = addr;
      salt = sealed.now.salt;
      iv = sealed.now.iv;
      mac = sealed.now.mac;
    } }
{
    BlockRef {
        size,
        addr,
        salt: sealed.salt,
        iv: sealed.iv,
        mac: sealed.mac,
    }
}

// Seals a text in place under the next draw, and puts it. Gives its reference, and the number of its
// salt.
fn put_text<K: BlockKey, B: Shelf>(
    key: &K,
    salts: &mut Salts,
    shelf: &mut B,
    text: &mut [u8],
) -> Result<(BlockRef, u64), MacError>
    requires small { length text.old ≤ MAX_BLOCK_LEN }
    requires draws { salts.old.made < MAX_DRAWS }
    ensures drawn { salts.new ≡ after_draws 1 salts.old }
    ensures value { IfOk result (λ put. put ≡ (
      ref_under (K.told key.now) (next_draw salts.old)
          (length (B.told shelf.old).sizes) text.old,
      (next_draw salts.old).number,
    )) }
    ensures stays { OnErr result (B.told shelf.new ≡ counted (B.told shelf.old)) }
    ensures puts { (before : List (List ℕ)) (start : ShelfState) → HasPut 0 before start (B.told shelf.old)
        → Puts 0 (before ++ sealed_under (K.told key.now) (next_draw salts.old) text.old ∷ []) result start
        (B.told shelf.new) }
{
    let drawn = salts.draw();
    let sealed = seal_block(key, &drawn, text);
    match put(shelf, text) {
        Ok(addr) => Ok((ref_to(text.len() as u32, addr, &sealed), drawn.number)),
        Err(stop) => Err(stop),
    }
}

// Seals and puts the text of this place, behind those before it.
fn put_at<K: BlockKey, B: Shelf, T: Texts>(
    key: &K,
    salts: &mut Salts,
    shelf: &mut B,
    texts: &T,
    at: u32,
    buffer: &mut Vec<u8>,
    placed: &mut Placed,
) -> Result<(), MacError>
    requires within { at < length (T.told texts.now) }
    requires small { length (slice_index_or (T.told texts.now) at []) ≤ MAX_BLOCK_LEN }
    requires draws { salts.old.made < MAX_DRAWS }
    ensures refs { OnOk result (placed.new.refs.items ≡ placed.old.refs.items
        ++ Some (ref_under (K.told key.now) (next_draw salts.old) (length (B.told shelf.old).sizes)
        (slice_index_or (T.told texts.now) at [])) ∷ []) }
    ensures number { OnOk result (placed.new.last_number ≡ Some (next_draw salts.old).number) }
    ensures seals { (before : List (List ℕ)) (first : SaltState) (start : ShelfState)
        → HasSealed (K.told key.now) before start (B.told shelf.old) first salts.old
        → Seals 0 (sealed_texts (K.told key.now) first (before ++ slice_index_or (T.told texts.now) at [] ∷ []))
        result start (B.told shelf.new) first salts.new }
{
    if let Err(stop) = texts.text_into(at, buffer) {
        return Err(stop);
    }
    let (to, number) = match put_text(key, salts, shelf, buffer.as_mut_slice()) {
        Ok(put) => put,
        Err(stop) => return Err(stop),
    };
    placed.last_number = Some(number);
    match placed.refs.push(Some(to)) {
        Ok(()) => Ok(()),
        Err(_) => Err(MacError::NoMemory),
    }
}

/// Seals and puts texts in ascending order, each under a draw of its own.
///
/// # Errors
///
/// `ShelfFault` exactly where one of the calls is the one whose failure was armed, `Full` where the
/// next block doesn't fit, and `NoMemory`. What was put by then is a front of the sealed texts; a draw
/// was made for each, and one more for a block that wasn't put.
pub(crate) fn put_texts<K: BlockKey, B: Shelf, T: Texts>(
    alloc: Global,
    key: &K,
    salts: &mut Salts,
    shelf: &mut B,
    texts: &T,
) -> Result<Placed, MacError>
    requires small { All (λ text. length text ≤ MAX_BLOCK_LEN) (T.told texts.now) }
    requires draws { HasDraws salts.old (length (T.told texts.now)) }
    ensures refs { IfOk result (λ placed. placed.refs.items
        ≡ refs_to (K.told key.now) salts.old (length (B.told shelf.old).sizes) (T.told texts.now)) }
    ensures number { IfOk result (λ placed. placed.last_number ≡ last_number salts.old (length (T.told texts.now))) }
    ensures seals { Seals 0 (sealed_texts (K.told key.now) salts.old (T.told texts.now)) result
        (B.told shelf.old) (B.told shelf.new) salts.old salts.new }
{
    let mut buffer = Vec::new(alloc);
    let mut placed = Placed {
        refs: Vec::new(alloc),
        last_number: None,
    };
    'texts: for at in 0..texts.count() {
        if let Err(stop) = put_at(key, salts, shelf, texts, at, &mut buffer, &mut placed) {
            return Err(stop);
        }
    }
    Ok(placed)
}
