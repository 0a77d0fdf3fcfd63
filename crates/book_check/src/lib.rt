// The check of a book: its form, read from the bytes, and then its questions.
#![tactic(auto)]

ghost use Rattle.text_read.specs.Reader.{ReadsFront};
ghost use Rattle.book_form.specs.Book.{opening};
ghost use Rattle.book_check.specs.Closing.{Closing};
ghost use Rattle.book_check.specs.BookCheck.{ChecksBook};

use book_form::{BookRefusal, CheckedBook, Opening, judge};
use book_lines::entries::read_entries;
use book_lines::moves::read_moves;
use text_read::{heads, read_row, read_text};

// Reads the lines `(book`, `(players P)` and `(fee C)`.
fn read_opening(book: &[u8]) -> Option<(Opening, &[u8])>
    ensures { ReadsFront book.now (opening book.now) result (λ r. (r.0.players, r.0.fee)) (λ r. r.1.now) }
{
    let rest = read_text(book, &heads::BOOK)?;
    let players = read_row::<1>(rest, &heads::PLAYERS)?;
    let fee = read_row::<1>(players.1, &heads::FEE)?;
    let (ps, cs) = (players.0, fee.0);
    let opening = Opening {
        players: ps[0],
        fee: cs[0],
    };
    Some((opening, fee.1))
}

// Whether `rest` is the last line, with nothing after it.
fn closes(rest: &[u8]) -> bool
    ensures { Closing rest.now result }
{
    rest == &heads::LINE_END[..]
}

// Puts the questions 11 to 16 to a book.
pub fn check(book: &[u8]) -> Result<CheckedBook, BookRefusal>
    ensures { ChecksBook book.now result }
{
    if 16384 < book.len() {
        return Err(BookRefusal::TooLong);
    }
    let Some((o, rest)) = read_opening(book) else {
        return Err(BookRefusal::Malformed);
    };
    let m = read_moves(rest);
    let rest = &rest[m.used..];
    let e = read_entries(rest, m.line, book.len());
    if !closes(&rest[e.used..]) {
        return Err(BookRefusal::Malformed);
    }
    judge(o, &m, &e)
}
