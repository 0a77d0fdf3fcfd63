// Whether an entry of a book may follow another, with what spare, and what the join costs.
#![tactic(auto)]

ghost use Rattle.std.specs.Prelude.{◌≡◌, ◌≤◌};
ghost use Rattle.way_theory.specs.Follow.{spare_with};
ghost use Rattle.way_joins.specs.Tables.{HasTiming, HasTables};
ghost use Rattle.way_joins.specs.Joins.{Roads, Spares, Joins};

use book_form::CheckedBook;
use book_lines::moves::{PairMove, place_of};

// The spare of a join that takes these ticks.
fn spare_with(ticks: u32, finish: u32, start: u32) -> i32
    requires { (ticks ≤ 1000000) × (finish ≤ 1000000) × (start ≤ 1000000) }
    ensures { result ≡ spare_with ticks finish start }
{
    start as i32 - finish as i32 - ticks as i32
}

// How a player goes from entry i to entry j, from the instrument that i ends on to the one that j begins on: as their line says, and without
// one only by staying. No entry follows itself.
fn road_between(book: &CheckedBook, i: usize, j: usize) -> Option<PairMove>
    requires { HasTiming book.now × (1 ≤ i) × (i ≤ book.now.count) × (1 ≤ j) × (j ≤ book.now.count) }
    ensures { Roads book.now i j result }
{
    if i == j {
        return None;
    }
    let a = book.entries[i - 1].leaves;
    let b = book.entries[j - 1].arrives;
    let line = book.moves[place_of(a, b)];
    match line {
        None if a == b => Some(PairMove { ticks: 0, cost: 0 }),
        _ => line,
    }
}

// The spare of the join from entry i to entry j, 0 or more if j may follow i; none without a move.
pub fn spare_of(book: &CheckedBook, i: usize, j: usize) -> Option<i32>
    requires { HasTiming book.now × (1 ≤ i) × (i ≤ book.now.count) × (1 ≤ j) × (j ≤ book.now.count) }
    ensures { Spares book.now i j result }
{
    let road = road_between(book, i, j)?;
    Some(spare_with(
        road.ticks,
        book.entries[i - 1].finish,
        book.entries[j - 1].start,
    ))
}

// What the join from entry i to entry j costs, if there is one; from 0, the opening of j.
pub fn join_of(book: &CheckedBook, i: usize, j: usize) -> Option<u32>
    requires { HasTables book.now × (i ≤ book.now.count) × (1 ≤ j) × (j ≤ book.now.count) }
    ensures { Joins book.now i j result }
{
    if i == 0 {
        return Some(book.fee);
    }
    let spare = spare_of(book, i, j)?;
    let cost = road_between(book, i, j)?.cost;
    if 0 <= spare { Some(cost) } else { None }
}
