// Lists of 32-bit numbers lent as bytes, four a number, two's complement, lowest first: reading them.
#![tactic(auto)]

ghost use Rattle.std.specs.Prelude.{◌≡◌, min, get_or, take, pos};
ghost use Rattle.laws.specs.Padded.{padded};
ghost use Rattle.bytes_read.specs.Words.{words, ints};

// Number i, and 0 where there is none.
pub fn read_i32(b: &[u8], i: usize) -> i32
    ensures { result ≡ get_or (ints b.now) i (pos 0) }
{
    let (fours, _) = b.as_chunks::<4>();
    match fours.get(i) {
        Some(four) => i32::from_le_bytes(*four),
        None => 0,
    }
}

// The first 512 numbers, and 0 in the places that are left.
pub fn read_words(b: &[u8]) -> [u32; 512]
    ensures { result ≡ padded 512 0 (take 512 (words b.now)) }
{
    let mut r = [0; 512];
    let (fours, _) = b.as_chunks::<4>();
    let m = fours.len().min(512);
    for (i, four) in fours[..m].iter().enumerate() {
        r[i] = u32::from_le_bytes(*four);
    }
    r
}
