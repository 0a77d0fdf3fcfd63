// What a check of a book hands back, and the questions 13 to 16 put to what its lines gave.
#![tactic(auto)]

ghost use Rattle.std.specs.Prelude.{◌≡◌};
ghost use Rattle.book_form.specs.Questions.{question_of, line_of};
ghost use Rattle.book_form.specs.Steps.{header_bad, judged_of};

use book_lines::entries::{BookEntry, Entries};
use book_lines::moves::{Moves, PairMove};
use book_lines::verdict::first_bad;

// The first question that a book fails, and for 13 to 15 the first line that fails it.
#[derive(Clone, Copy)]
pub enum BookRefusal {
    TooLong,
    Malformed,
    BadHeader(u32),
    BadMove(u32),
    BadEntry(u32),
    TooMany,
}

impl BookRefusal {
    // The number of the question.
    pub fn number(self) -> u32
        ensures { result ≡ question_of self }
    {
        match self {
            BookRefusal::TooLong => 11,
            BookRefusal::Malformed => 12,
            BookRefusal::BadHeader(_) => 13,
            BookRefusal::BadMove(_) => 14,
            BookRefusal::BadEntry(_) => 15,
            BookRefusal::TooMany => 16,
        }
    }

    // The line that is told with it, 0 if none.
    pub fn line(self) -> u32
        ensures { result ≡ line_of self }
    {
        match self {
            BookRefusal::BadHeader(k) => k,
            BookRefusal::BadMove(k) => k,
            BookRefusal::BadEntry(k) => k,
            BookRefusal::TooLong | BookRefusal::Malformed | BookRefusal::TooMany => 0,
        }
    }
}

// A book that passed its questions. What the line of the move from instrument a to b says is at (a - 1) * 16 + (b - 1) of `moves`. An entry
// begins on the instrument that `arrives` has, and ends on that of `leaves`. That it holds a book within its limits is a clause (`Held`) and no
// ghost field: `check` and `judge` promise equations of checked books, and a ghost field would be a part of what is equal.
#[derive(Clone, Copy)]
pub struct CheckedBook {
    pub players: u32,
    pub fee: u32,
    pub moves: [Option<PairMove>; 256],
    pub count: usize,
    pub entries: [BookEntry; 28],
}

// The lines `(book`, `(players P)` and `(fee C)`.
#[derive(Clone, Copy)]
pub struct Opening {
    pub players: u32,
    pub fee: u32,
}

// The first line that fails 13.
#[tactic(auto, using(crate::proofs::Judging::two_lines))]
fn header_bad(o: Opening) -> Option<u32>
    ensures { result ≡ header_bad o }
{
    let players = first_bad(None, (1 <= o.players) & (o.players <= 8), 2);
    first_bad(players, o.fee <= 1_000_000, 3)
}

// The questions 13 to 16, each put to the whole book before the next.
pub fn judge(o: Opening, m: &Moves, e: &Entries) -> Result<CheckedBook, BookRefusal>
    ensures { result ≡ judged_of o m.now e.now }
{
    if let Some(line) = header_bad(o) {
        return Err(BookRefusal::BadHeader(line));
    }
    if let Some(line) = m.bad {
        return Err(BookRefusal::BadMove(line));
    }
    if let Some(line) = e.bad {
        return Err(BookRefusal::BadEntry(line));
    }
    if 28 < e.count {
        return Err(BookRefusal::TooMany);
    }
    Ok(CheckedBook {
        players: o.players,
        fee: o.fee,
        moves: m.table,
        count: e.count,
        entries: e.entries,
    })
}
