// The lines of moves: question 14, and the table that they make.
ghost use Rattle.std.specs.Prelude.{◌≡◌, ◌≤◌, ◌<◌, length};
ghost use Rattle.text_read.specs.Reader.{ReadsFront};
ghost use Rattle.book_lines.specs.Lines.{move};
ghost use Rattle.book_lines.specs.Questions.{fair_move};
ghost use Rattle.book_lines.specs.Columns.{place};
ghost use Rattle.book_lines.specs.Passes.{Put, MovesRead};

use crate::verdict::{first_bad, is_instrument};
use text_read::{heads, read_row};

#[derive(Clone, Copy)]
pub struct Move {
    pub source: u32,
    pub target: u32,
    pub ticks: u32,
    pub cost: u32,
}

// What the line of an ordered pair of instruments says.
#[derive(Clone, Copy)]
pub struct PairMove {
    pub ticks: u32,
    pub cost: u32,
}

// The moves that may stand, each at the place of its pair, and the first line that fails; `line` is the line after the moves.
#[derive(Clone, Copy)]
pub struct Moves {
    pub table: [Option<PairMove>; 256],
    pub line: u32,
    pub bad: Option<u32>,
    pub used: usize,
}

// The line of a move at the front of `rest`.
fn read_move(rest: &[u8]) -> Option<(Move, &[u8])>
    ensures { ReadsFront rest.now (move rest.now) result (λ r. r.0) (λ r. r.1.now) }
{
    let read = read_row::<4>(rest, &heads::MOVE)?;
    let numbers = read.0;
    let m = Move {
        source: numbers[0],
        target: numbers[1],
        ticks: numbers[2],
        cost: numbers[3],
    };
    Some((m, read.1))
}

fn is_fair(m: Move) -> bool
    ensures { result ≡ fair_move m }
{
    is_instrument(m.source)
        & is_instrument(m.target)
        & (m.ticks <= 1_000_000)
        & (m.cost <= 1_000_000)
}

// The place of the pair a, b in the table.
pub fn place_of(a: u32, b: u32) -> usize
    requires { (1 ≤ a) × (a ≤ 16) × (1 ≤ b) × (b ≤ 16) }
    ensures { (result ≡ place a b) × (result < 256) }
{
    ((a - 1) * 16 + (b - 1)) as usize
}

// Puts a move into the table, and answers whether its line passes.
fn put_move(table: &mut [Option<PairMove>; 256], m: Move) -> bool
    ensures { Put m table.old table.new result }
{
    if !is_fair(m) {
        return false;
    }
    let k = place_of(m.source, m.target);
    if table[k].is_some() {
        return false;
    }
    table[k] = Some(PairMove {
        ticks: m.ticks,
        cost: m.cost,
    });
    true
}

// The moves at the front of `book`, whose first line is line 4.
pub fn read_moves(book: &[u8]) -> Moves
    requires { length book.now ≤ 16384 }
    ensures { MovesRead book.now result }
{
    let mut table: [Option<PairMove>; 256] = [None; 256];
    let mut line: u32 = 4;
    let mut bad: Option<u32> = None;
    let mut rest = book;
    while let Some((m, after)) = read_move(rest) {
        let passes = put_move(&mut table, m);
        bad = first_bad(bad, passes, line);
        line += 1;
        rest = after;
    }
    Moves {
        table,
        line,
        bad,
        used: book.len() - rest.len(),
    }
}
