// The ticks between each entry of a way and its predecessor: the gap, and the spare, which is what the move leaves of it.
#![tactic(auto)]

ghost use Rattle.std.specs.Prelude.{◌≡◌, ◌≤◌};
ghost use Rattle.way_joins.specs.Tables.{HasTiming};
ghost use Rattle.way_gaps.specs.Gaps.{ticks_told, TicksTo, HasWay, TellsTicks};

use book_form::CheckedBook;

// The gap and the spare of the join to an entry of a way; 0 where it opens a part.
#[derive(Clone, Copy)]
pub struct JoinTicks {
    pub gap: u32,
    pub spare: u32,
}

// The ticks of a spare; 0 where it is less, or there is no move.
fn ticks_told(spare: Option<i32>) -> u32
    ensures { result ≡ ticks_told spare }
{
    spare.unwrap_or(0).max(0) as u32
}

// The gap and the spare of the join from entry i to entry j; 0 where i is 0.
fn ticks_to(book: &CheckedBook, i: usize, j: usize) -> JoinTicks
    requires { HasTiming book.now × (i ≤ book.now.count) × (1 ≤ j) × (j ≤ book.now.count) }
    ensures { TicksTo book.now i j result }
{
    if i == 0 {
        return JoinTicks { gap: 0, spare: 0 };
    }
    let spare = way_joins::spare_of(book, i, j);
    JoinTicks {
        gap: book.entries[j - 1]
            .start
            .saturating_sub(book.entries[i - 1].finish),
        spare: ticks_told(spare),
    }
}

// The gaps and the spares of a way of a book, a place for each entry; 0 in the places behind the last.
pub fn join_ticks(book: &CheckedBook, way: &[u32]) -> [JoinTicks; 28]
    requires { HasWay book.now way.now }
    ensures { TellsTicks book.now way.now result }
{
    let mut ticks = [JoinTicks { gap: 0, spare: 0 }; 28];
    for (k, i) in way.iter().enumerate() {
        ticks[k] = ticks_to(book, *i as usize, k + 1);
    }
    ticks
}
