// The calls of a book, as `desk` hands them to C: each ensures what a caller sees of it, refused calls included.
#![tactic(auto)]

ghost use Rattle.laws.specs.Rules.{first, next};
ghost use Rattle.call_book.specs.BookEntries.{BookFirst, BookNext, BookCount, Answered};

use call_reply::{Code, Reply};
use call_way_bytes::WayRefusal;

// The first least-cost way, or "none". Questions 11 to 17.
pub fn first(book: &[u8], way: &mut [u8]) -> Reply
    ensures { BookFirst book.now way.old result way.new }
{
    call_way_bytes::reply_of(first_way(book, way))
}

fn first_way(book: &[u8], way: &mut [u8]) -> Result<Reply, WayRefusal>
    ensures { Answered book.now (first way.old) way.new result }
{
    let checked = call_way_bytes::admit_with_room(book, way.len())?;
    let ways = way_enumerate::start(&checked).first();
    Ok(call_way_bytes::hand_way(&ways, way, Code::None.number()))
}

// The least-cost way after the one given, or "end". Questions 11 to 18.
pub fn next(book: &[u8], given: &[u8], way: &mut [u8]) -> Reply
    ensures { BookNext book.now given.now way.old result way.new }
{
    call_way_bytes::reply_of(next_way(book, given, way))
}

fn next_way(book: &[u8], given: &[u8], way: &mut [u8]) -> Result<Reply, WayRefusal>
    ensures { Answered book.now (next given.now way.old) way.new result }
{
    let checked = call_way_bytes::admit_with_room(book, way.len())?;
    let ways = call_way_bytes::resume_way(&checked, given)?;
    Ok(call_way_bytes::hand_way(&ways.next(), way, Code::End.number()))
}

// How many least-cost ways there are, up to the cap. Questions 11 to 16.
pub fn count(book: &[u8], cap: u16) -> Reply
    ensures { BookCount book.now cap result }
{
    match book_check::check(book) {
        Ok(checked) => call_reply::count_reply(way_enumerate::start(&checked).count(cap), cap),
        Err(refusal) => call_reply::refused_at(refusal.number(), refusal.line()),
    }
}
