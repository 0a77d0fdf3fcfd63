// The parts of a way. A way is the list that the C interface lends: the predecessor of each entry, and 0 where it opens a part.
#![tactic(auto)]

ghost use Rattle.std.specs.Prelude.{◌≡◌, ◌+◌, ◌≤◌, length};
ghost use Rattle.laws.specs.Padded.{padded};
ghost use Rattle.laws.specs.Appended.{Appended};
ghost use Rattle.laws.specs.Optional.{optional};
ghost use Rattle.way_parts.specs.Parts.{successor, part_of, playing_order};
ghost use Rattle.way_parts.specs.Acyclic.{Acyclic};

// The entry that is played next after entry i, if any.
fn successor(way: &[u32], i: u32) -> Option<u32>
    requires { length way.now ≤ 28 }
    ensures { result ≡ optional (successor way.now i) }
{
    let k = way.iter().position(|p| *p == i)?;
    Some(k as u32 + 1)
}

// The part that entry j opens, written from the place `at` on; the place after it.
fn put_part(way: &[u32], order: &mut [u32], at: usize, j: u32) -> usize
    requires { Acyclic way.now × (1 ≤ j) × (j ≤ length way.now) × (at + length (part_of way.now j) ≤ length order.old) }
    ensures { Appended order.old at (part_of way.now j) order.new result }
{
    let mut next = Some(j);
    let mut k = at;
    while let Some(i) = next {
        order[k] = i;
        k += 1;
        next = successor(way, i);
    }
    k
}

// The entries of a way, part by part, each part in playing order; 0 in the places behind the last.
pub fn playing_order(way: &[u32]) -> [u32; 28]
    requires { Acyclic way.now }
    ensures { result ≡ padded 28 0 (playing_order way.now) }
{
    let mut order = [0u32; 28];
    let mut at = 0;
    for (k, i) in way.iter().enumerate() {
        if *i == 0 {
            at = put_part(way, &mut order, at, k as u32 + 1);
        }
    }
    order
}
