// Lists of 32-bit numbers written to lists of bytes that are lent.
#![tactic(auto)]

ghost use Rattle.std.specs.Prelude.{◌≡◌, ℕ, ◌/◌, length, take, map};
ghost use Rattle.bytes_read.specs.Words.{unsigned, encode_words, encode_ints, over};
ghost use Rattle.bytes_write.specs.Writing.{fitting};

// A number that is written as 32 bits.
pub trait Word: Copy {
    ghost word: { Self → ℕ };

    fn word(self) -> u32
        ensures { result ≡ word self };
}

impl Word for u32 {
    ghost word = { λ n. n };

    fn word(self) -> u32 {
        self
    }
}

impl Word for i32 {
    ghost word = { unsigned };

    fn word(self) -> u32 {
        self.cast_unsigned()
    }
}

// The numbers of xs to the first places of out, as many as it has places for.
pub fn write_numbers<T: Word>(out: &mut [u8], xs: &[T])
    ensures { out.new ≡ over (encode_words (take (length out.old / 4) (map T.word xs.now))) out.old }
{
    let k = xs.len().min(out.len() / 4);
    for (i, x) in xs[..k].iter().enumerate() {
        out[4 * i..4 * i + 4].copy_from_slice(&x.word().to_le_bytes());
    }
}

// The first m numbers of xs to the first places of out, as many as it has places for.
pub fn write_words(out: &mut [u8], xs: &[u32], m: usize)
    ensures { out.new ≡ over (encode_words (take (fitting m out.old) xs.now)) out.old }
{
    write_numbers(out, &xs[..m.min(xs.len())]);
}

// The same of signed numbers.
pub fn write_ints(out: &mut [u8], xs: &[i32], m: usize)
    ensures { out.new ≡ over (encode_ints (take (fitting m out.old) xs.now)) out.old }
{
    write_numbers(out, &xs[..m.min(xs.len())]);
}
