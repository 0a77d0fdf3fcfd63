// The call of the spare of a join.
#![tactic(auto)]

ghost use Rattle.std.specs.Prelude.{◌≡◌};
ghost use Rattle.call_spare.specs.SpareCall.{spare_reply, BookSpare};

use book_names::is_entry;
use call_reply::Reply;

// The spare ticks, or 103 for no move.
fn spare_reply(spare: Option<i32>) -> Reply
    ensures { result ≡ spare_reply spare }
{
    match spare {
        None => call_reply::code_alone(103),
        Some(ticks) => Reply {
            code: 0,
            line: 0,
            value: i64::from(ticks),
        },
    }
}

// The spare of the join from one entry of a book to another. Questions 11 to 16 and 19.
pub fn spare_between(book: &[u8], earlier: u32, later: u32) -> Reply
    ensures { BookSpare book.now earlier later result }
{
    match book_check::check(book) {
        Err(refusal) => call_reply::refused_at(refusal.number(), refusal.line()),
        Ok(checked) if is_entry(checked.count, earlier) && is_entry(checked.count, later) => {
            spare_reply(way_joins::spare_of(&checked, earlier as usize, later as usize))
        }
        Ok(_) => call_reply::code_alone(19),
    }
}
