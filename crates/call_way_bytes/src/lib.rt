// The ways of a book as the bytes of a call: questions 17 and 18, and a way written.
#![tactic(auto)]

ghost use Rattle.std.specs.Prelude.{◌≡◌, true, length, MatchResult};
ghost use Rattle.book_form.specs.Held.{Held};
ghost use Rattle.way_enumerate.specs.WayEnumerator.{EnumeratesSome};
ghost use Rattle.call_reply.specs.Replies.{refused_at};
ghost use Rattle.call_reply.specs.ByteLists.{room};
ghost use Rattle.call_way_bytes.specs.Refusals.{number_of, line_of};
ghost use Rattle.call_way_bytes.specs.WaySteps.{AdmitsWithRoom, ReadsGiven, ResumesWay, IsGiven, HandsWay};

use book_form::{BookRefusal, CheckedBook};
use call_reply::Reply;
use way_enumerate::WayEnumerator;

// The question that a call of a book fails: one of 11 to 16, 17 of the list lent for a way, 18 of the way given, or 21 of the list lent for a text.
#[derive(Clone, Copy)]
pub enum WayRefusal {
    Book(BookRefusal),
    Room,
    StrangeWay,
    Text,
}

impl WayRefusal {
    // The number of the question.
    pub fn number(self) -> u32
        ensures { result ≡ number_of self }
    {
        match self {
            WayRefusal::Book(refusal) => refusal.number(),
            WayRefusal::Room => 17,
            WayRefusal::StrangeWay => 18,
            WayRefusal::Text => 21,
        }
    }

    // The line that is told with it.
    pub fn line(self) -> u32
        ensures { result ≡ line_of self }
    {
        match self {
            WayRefusal::Book(refusal) => refusal.line(),
            WayRefusal::Room | WayRefusal::StrangeWay | WayRefusal::Text => 0,
        }
    }

    pub fn reply(self) -> Reply
        ensures { result ≡ refused_at (number_of self) (line_of self) }
    {
        call_reply::refused_at(self.number(), self.line())
    }
}

impl From<BookRefusal> for WayRefusal {
    ghost use Rattle.call_way_bytes.specs.declared.WayRefusal.TheVariants.{Book};

    ghost from_gives = { λ refusal r. r ≡ Book refusal };

    fn from(refusal: BookRefusal) -> WayRefusal {
        WayRefusal::Book(refusal)
    }
}

// The reply of a call, answered or refused.
pub fn reply_of(answer: Result<Reply, WayRefusal>) -> Reply
    ensures { MatchResult answer (λ reply. result ≡ reply) (λ refusal. result ≡ refused_at (number_of refusal) (line_of refusal)) }
{
    answer.unwrap_or_else(WayRefusal::reply)
}

// Puts questions 11 to 17, where a list of so many bytes is lent for the way.
pub fn admit_with_room(book: &[u8], bytes: usize) -> Result<CheckedBook, WayRefusal>
    ensures { AdmitsWithRoom book.now bytes result }
{
    let checked = book_check::check(book)?;
    if !call_reply::has_room(checked.count, bytes) {
        return Err(WayRefusal::Room);
    }
    Ok(checked)
}

// The numbers of a list given, the first as many as there are entries, if it has that many.
fn read_given(book: &CheckedBook, given: &[u8]) -> Option<[u32; 512]>
    requires { Held book.now }
    ensures { ReadsGiven book.now given.now result }
{
    if given.len() != 4 * book.count {
        return None;
    }
    Some(bytes_read::read_words(given))
}

// Question 18: the enumerator that stands on the way given.
pub fn resume_way(book: &CheckedBook, given: &[u8]) -> Result<WayEnumerator, WayRefusal>
    requires { Held book.now }
    ensures { ResumesWay book.now given.now result }
{
    let Some(numbers) = read_given(book, given) else {
        return Err(WayRefusal::StrangeWay);
    };
    let ways = way_enumerate::resume(book, &numbers[..book.count]);
    if !call_reply::on_item(ways.flows.place) {
        return Err(WayRefusal::StrangeWay);
    }
    Ok(ways)
}

// Question 18 as a test: whether the way given is on the full list.
pub fn is_given(book: &CheckedBook, given: &[u8]) -> bool
    requires { Held book.now }
    ensures { IsGiven book.now given.now result }
{
    match read_given(book, given) {
        Some(numbers) => way_enumerate::is_item(book, &numbers[..book.count]),
        None => false,
    }
}

// Writes the way that the enumerator stands on; without one the reply is `code`.
pub fn hand_way(ways: &WayEnumerator, way: &mut [u8], code: u32) -> Reply
    requires { EnumeratesSome ways.now × (room ways.now.entries (length way.old) ≡ true) }
    ensures { HandsWay ways.now code way.old result way.new }
{
    if !call_reply::on_item(ways.flows.place) {
        return call_reply::code_alone(code);
    }
    let numbers = ways.way();
    call_reply::hand_numbers(&numbers[..ways.entries], ways.flows.cost, way)
}
