// How many bytes a `Writer` writes, without writing them.
#![tactic(auto)]

ghost use Rattle.std.specs.Prelude.{◌≡◌, ◌++◌, ◌≤◌, length};
ghost use Rattle.text_read.specs.Heads.{line_end};
ghost use Rattle.text_write.specs.Decimal.{decimal};

use text_read::heads;

// The powers of ten from 10 on that a number of 32 bits may reach.
const POWERS: [u32; 9] = [
    10, 100, 1000, 10000, 100000, 1000000, 10000000, 100000000, 1000000000,
];

// How many digits n has: nine tests, and no division.
fn digit_count(n: u32) -> usize
    ensures digits { result ≡ length (decimal n) }
    ensures few { result ≤ 10 }
{
    1 + POWERS.iter().filter(|power| **power <= n).count()
}

// What `Writer::item` writes.
pub fn item_size(head: &[u8], n: u32) -> usize
    requires { length head.now ≤ 16384 }
    ensures { result ≡ length (head.now ++ decimal n) }
{
    head.len() + digit_count(n)
}

// What `Writer::row` writes.
pub fn row_size(head: &[u8], n: u32) -> usize
    requires { length head.now ≤ 16384 }
    ensures { result ≡ length (head.now ++ decimal n ++ line_end) }
{
    item_size(head, n) + heads::LINE_END.len()
}
