// Sets of rows as bits, w words of 32 bits to a row: a bit asked, a bit set, words cleared. For any number of rows.
#![tactic(auto)]

ghost use Rattle.std.specs.Prelude.{◌≡◌, ◌+◌, ◌*◌, ◌/◌, ◌≤◌, ◌<◌, length};
ghost use Rattle.bits.specs.Bits.{word_bits, bit_at, put_bit, clear_words};

// The bits of a word.
pub const WORD_BITS: usize = 32;

// Row r's bit s.
#[tactic(auto, unfolding(crate::specs::Bits::bit_at, crate::specs::Bits::bit))]
pub fn bit_at(m: &[u32], w: usize, r: usize, s: usize) -> bool
    requires { r * w + s / word_bits < length m.now }
    ensures { result ≡ bit_at w m.now r s }
{
    (m[r * w + s / WORD_BITS] >> (s % WORD_BITS)) % 2 == 1
}

// Sets row r's bit s.
#[tactic(auto, using(crate::proofs::BitLaws::one_shift), unfolding(crate::specs::Bits::put_bit))]
pub fn put_bit(m: &mut [u32], w: usize, r: usize, s: usize)
    requires { r * w + s / word_bits < length m.old }
    ensures { m.new ≡ put_bit w m.old r s }
{
    let k = r * w + s / WORD_BITS;
    m[k] |= 1u32 << (s % WORD_BITS);
}

// Sets the n words from d on to 0.
pub fn clear_words(m: &mut [u32], d: usize, n: usize)
    requires { d + n ≤ length m.old }
    ensures { m.new ≡ clear_words m.old d n }
{
    m[d..d + n].fill(0);
}
