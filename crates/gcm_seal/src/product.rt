// The product of blocks in GF(2^128) (SP 800-38D, 6.3). A block is a `u128`, its leftmost bit the
// highest, which is the coefficient of x^0.

ghost use Rattle.std.specs.Prelude.{◌≡◌, ◌≤◌, ◌<◌, ◌+◌, ◌-◌, ◌*◌, ◌/◌, ◌^◌, ℕ, bit_xor, slice_index};
ghost use Rattle.gcm_seal.specs.Gcm.{product, r_block, v_at};
ghost use Rattle.gcm_seal.specs.Multiples.{HasMultiples};

use std::marker::Model;

// The bits 11100001, and 120 zeros: x^128 in GF(2^128).
const R: u128 = 0xe1 << 120;

// The product bit by bit (Algorithm 1), which the other is tested against.
pub fn multiply_by_steps(x: u128, y: u128) -> u128
    ensures { result ≡ product x y }
{
    let mut z = 0;
    let mut v = y;
    for i in 0..128u32 {
        if x >> (127 - i) & 1 == 1 {
            z ^= v;
        }
        v = if v & 1 == 0 { v >> 1 } else { (v >> 1) ^ R };
    }
    z
}

// x times a block.
fn times_x(v: u128) -> u128
    ensures { result ≡ v_at v 1 }
{
    if v & 1 == 0 { v >> 1 } else { (v >> 1) ^ R }
}

// The multiples in a table: four of the two highest bits of a block, and 64 of each six bits that
// follow.
pub const MULTIPLES_LEN: usize = 1348;

// x^3 times a block.
#[inline(always)]
fn times_x3(v: u128) -> u128
    ensures { result ≡ v_at v 3 }
{
    times_x(times_x(times_x(v)))
}

// Fills the table with the multiples of h by each two bits and each six bits at their place in a
// block. Those of a place stand one after the other, the highest bits' first.
pub fn put_multiples(table: &mut [u128; MULTIPLES_LEN], h: u128)
    ensures { HasMultiples table.new h }
{
    let once = times_x(h);
    table[..4].copy_from_slice(&[0, once, h, h ^ once]);
    let mut power = times_x(once);
    for place in 0..21 {
        let start = 4 + 64 * place;
        table[start..start + 64].copy_from_slice(&row(power));
        power = times_x3(times_x3(power));
    }
}

// The sums of `v` and its multiples by x to x^5, at the numbers whose bits say what is added, the
// highest for `v`.
fn row(v: u128) -> [u128; 64]
    ensures { (h place n : ℕ) → place < 21 → v ≡ v_at h (2 + 6 * place) → n < 64
        → slice_index result n ≡ product (n * 2 ^ (120 - 6 * place)) h }
{
    let high = eight_sums(v);
    let low = eight_sums(times_x3(v));
    let mut sums = [0; 64];
    for n in 0..8 {
        sums[8 * n..8 * n + 8].copy_from_slice(&added(high[n], &low));
    }
    sums
}

// The sums of `v` and each of eight.
#[inline(always)]
fn added(v: u128, sums: &[u128; 8]) -> [u128; 8]
    ensures { (n : ℕ) → n < 8 → slice_index result n ≡ bit_xor v (slice_index sums.now n) }
{
    [
        v ^ sums[0],
        v ^ sums[1],
        v ^ sums[2],
        v ^ sums[3],
        v ^ sums[4],
        v ^ sums[5],
        v ^ sums[6],
        v ^ sums[7],
    ]
}

// The sums of `v` and its multiples by x and x^2, at the numbers whose bits say what is added, the
// highest for `v`.
#[inline(always)]
fn eight_sums(v: u128) -> [u128; 8]
    ensures { (h i n : ℕ) → i ≤ 125 → v ≡ v_at h i → n < 8
        → slice_index result n ≡ product (n * 2 ^ (125 - i)) h }
{
    let once = times_x(v);
    let twice = times_x(once);
    let high = v ^ once;
    [
        0,
        twice,
        once,
        once ^ twice,
        v,
        v ^ twice,
        high,
        high ^ twice,
    ]
}

// Each place by its number, so that each shift is by a constant.
macro_rules! each_place {
    ($sum:expr, $x:expr, $multiples:expr;) => { $sum };
    ($sum:expr, $x:expr, $multiples:expr; $place:literal $($more:literal)*) => {
        each_place!(with_multiple($sum, $x, $place, $multiples), $x, $multiples; $($more)*)
    };
}

// The product of x and h, by the multiples of h, one for the two highest bits of x and one for each
// six bits that follow.
pub fn multiply(x: u128, multiples: &[u128; MULTIPLES_LEN]) -> u128
    ensures { (h : ℕ) → HasMultiples multiples.now h → result ≡ product x h }
{
    each_place!(
        multiples[(x >> 126) as usize], x, multiples;
        0 1 2 3 4 5 6 7 8 9 10 11 12 13 14 15 16 17 18 19 20
    )
}

// The multiples of the bits of x before a place, and that of the six at it.
#[inline(always)]
fn with_multiple(sum: u128, x: u128, place: u32, multiples: &[u128; MULTIPLES_LEN]) -> u128
    requires { place < 21 }
    ensures { (h : ℕ) → HasMultiples multiples.now h
        → sum ≡ product (x / 2 ^ (126 - 6 * place) * 2 ^ (126 - 6 * place)) h
        → result ≡ product (x / 2 ^ (120 - 6 * place) * 2 ^ (120 - 6 * place)) h }
{
    let six_bits = x >> (120 - 6 * place) & 0x3f;
    sum ^ multiples[4 + 64 * place as usize + six_bits as usize]
}

// The coefficients from x^128 on, brought below it: x^128 is 1 + x + x^2 + x^7.
fn reduced(back: u128) -> u128
    ensures { result ≡ product back r_block }
{
    let near = back ^ (back >> 1) ^ (back >> 2) ^ (back >> 7);
    let far = (back << 127) ^ (back << 126) ^ (back << 121);
    near ^ far ^ (far >> 1) ^ (far >> 2) ^ (far >> 7)
}

/// The product of blocks keeps sums in each factor, a power of x goes through it, and the block of
/// x^0 is its one. The product of the second block of the standard's second test case is the
/// example (SP 800-38D, 6.3).
pub fn product_laws()
    ensures left { (a b y : ℕ) → product (bit_xor a b) y ≡ bit_xor (product a y) (product b y) }
    ensures right { (x a b : ℕ) → product x (bit_xor a b) ≡ bit_xor (product x a) (product x b) }
    ensures powers { (x y k : ℕ) → product x (v_at y k) ≡ v_at (product x y) k }
    ensures shift { (n a y : ℕ) → a * 2 ^ n < 2 ^ 128 → v_at (product (a * 2 ^ n) y) n ≡ product a y }
    ensures one { (x : ℕ) → x < 2 ^ 128 → product x (2 ^ 127) ≡ x }
    ensures example { product 0x0388dace60b6a392f328c2b971b2fe78 0x66e94bd4ef8a2c3b884cfa59ca342b2e
        ≡ 0x5e2ec746917062882c85b0685353deb7 }
{}

/// The multiples of a block by the polynomials of a degree below 4. Contracts see the block.
#[derive(Drop)]
pub struct GhashTable {
    multiples: [u128; 16],
}

impl Model for GhashTable {
    ghost use Rattle.std.specs.Prelude.{◌≡◌, ℕ, ◌*◌, ◌^◌, ◌<◌, slice_index};
    ghost use Rattle.gcm_seal.specs.Gcm.{product};

    ghost Value = { ℕ };

    ghost view = { λ t. slice_index t.multiples 8 };

    ghost invariant = { λ t. (n : ℕ) → n < 16
        → slice_index t.multiples n ≡ product (n * 2 ^ 124) (slice_index t.multiples 8) };
}

impl GhashTable {
    /// The table of `h`.
    pub fn new(h: u128) -> GhashTable
        ensures { result ≡ h }
    {
        let mut multiples = [0; 16];
        for n in 0..16 {
            multiples[n] = multiply_by_steps((n as u128) << 124, h);
        }
        GhashTable { multiples }
    }

    /// The product of `x` and the table's block, by thirty-two look-ups, which are added to `looks`.
    pub fn mul_counted(&self, x: u128, looks: &mut u64) -> u128
        requires room { looks.old < 2 ^ 63 }
        ensures product { result ≡ product x self.now }
        ensures counted { looks.new ≡ looks.old + 32 }
    {
        let mut front = self.multiples[(x >> 124) as usize];
        let mut back = 0;
        *looks += 1;
        for k in 1..32u32 {
            let multiple = self.multiples[(x >> (124 - 4 * k) & 0xf) as usize];
            front ^= multiple >> (4 * k);
            back ^= multiple << (128 - 4 * k);
            *looks += 1;
        }
        front ^ reduced(back)
    }
}
