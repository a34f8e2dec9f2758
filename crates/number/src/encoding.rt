// Compressed numbers: the length of an encoding, and writing one.
ghost use Rattle.std.specs.Prelude.{◌≡◌, length};
ghost use Rattle.number.specs.Number.{encode, put_at};

// Numbers below this have an encoding.
const LIMIT: u32 = crate::MAX_NUMBER + 1;

// How many bytes the encoding of `v` has: 0 where it has none.
// Kept: 0 and no Option, here and in `put_number`, since the contract is the length of `encode v`, which is no bytes there.
pub fn number_len(v: u32) -> usize
    ensures { result ≡ length (encode v) }
{
    if v < 0x80 {
        return 1;
    }
    if v < 0x4000 {
        return 2;
    }
    if v < LIMIT {
        return 4;
    }
    0
}

// Writes the encoding of `v` at the offset `at` where it fits, and else nothing. The result is the number of its bytes in either case.
pub fn put_number(out: &mut [u8], at: usize, v: u32) -> usize
    ensures { (result ≡ length (encode v)) × (out.new ≡ put_at out.old at (encode v)) }
{
    let n = number_len(v);
    if out.len() < n {
        return n;
    }
    if out.len() - n < at {
        return n;
    }
    if v < 0x80 {
        out[at] = v as u8;
    } else if v < 0x4000 {
        out[at] = (0x80 + v / 0x100) as u8;
        out[at + 1] = (v % 0x100) as u8;
    } else if v < LIMIT {
        out[at] = (0xC0 + v / 0x1000000) as u8;
        out[at + 1] = (v / 0x10000 % 0x100) as u8;
        out[at + 2] = (v / 0x100 % 0x100) as u8;
        out[at + 3] = (v % 0x100) as u8;
    }
    n
}
