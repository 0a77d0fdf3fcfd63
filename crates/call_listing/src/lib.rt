// The listing of a book.
#![tactic(auto)]

ghost use Rattle.std.specs.Prelude.{◌≡◌, ◌≤◌, length};
ghost use Rattle.way_list.specs.Room.{listing_room};
ghost use Rattle.call_listing.specs.Listing.{Printed, BookListing, WritesListing};

use call_reply::{Code, Reply};
use text_listing::Line;

// A text that is written, so many bytes, and the reply where it is no listing of ways: a refusal, or "none".
#[derive(Clone, Copy)]
struct Written {
    len: usize,
    refused: Option<Reply>,
}

// Room for the longest listing, in bytes.
pub const LISTING_ROOM: usize = 91028;

fn blank() -> [u8; LISTING_ROOM]
    ensures { listing_room ≡ length result }
{
    [0; LISTING_ROOM]
}

// The text that `ways` prints, at the front of a list that has room for the longest.
fn write_listing(book: &[u8], out: &mut [u8]) -> Written
    requires { listing_room ≤ length out.old }
    ensures { WritesListing book.now out.old result out.new }
{
    let checked = match book_check::check(book) {
        Ok(checked) => checked,
        Err(refusal) => {
            let number = refusal.number();
            return Written {
                len: text_listing::put_alone(out, Line::Refused(u64::from(number))),
                refused: Some(call_reply::refused_at(number, refusal.line())),
            };
        }
    };
    let ways = way_enumerate::start(&checked).first();
    if !call_reply::on_item(ways.flows.place) {
        return Written {
            len: text_listing::put_alone(out, Line::NoWay),
            refused: Some(call_reply::code_alone(Code::None.number())),
        };
    }
    Written {
        len: way_list::list(ways, out),
        refused: None,
    }
}

// The text that `ways` prints, where there is room for it; how long it is.
pub fn printed(book: &[u8], text: &mut [u8]) -> usize
    ensures { Printed book.now text.old text.new result }
{
    let mut room = blank();
    let written = write_listing(book, &mut room);
    let n = written.len;
    text_write::copy_if_room(&room[..n], text);
    n
}

// The listing of the ways of a book, where there is room for it, and how long it is; or "none". Questions 11 to 16.
pub fn list(book: &[u8], text: &mut [u8]) -> Reply
    ensures { BookListing book.now text.old result text.new }
{
    let mut room = blank();
    let written = write_listing(book, &mut room);
    if let Some(reply) = written.refused {
        return reply;
    }
    let n = written.len;
    text_write::copy_if_room(&room[..n], text);
    call_reply::value_alone(n as i64)
}
