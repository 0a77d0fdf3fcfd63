// What the calls of a network and of a book share: the reply, and the lists lent.
#![tactic(auto)]

ghost use Rattle.std.specs.Prelude.{◌≡◌, true, length, take};
ghost use Rattle.std.proofs.Math.Option.{some};
ghost use Rattle.laws.specs.Count.{counted};
ghost use Rattle.call_reply.specs.Codes.{number_of};
ghost use Rattle.call_reply.specs.Replies.{value_alone, code_alone, refused_at, HandsItem, on_item, count_reply};
ghost use Rattle.call_reply.specs.ByteLists.{room};

use flow_enumerate::Place;

// code: 0 with an item or a value, the number of a `Code`, any other the number of the question failed.
// line: the first line of a book that fails the question, with 13, 14 and 15. value: the cost, the count, the length, the room or the spare.
// It is the struct that C gets, so code is a number.
#[repr(C)]
#[derive(Clone, Copy)]
pub struct Reply {
    pub code: u32,
    pub line: u32,
    pub value: i64,
}

// What a reply says that has no item and no value, and is no refusal.
#[derive(Clone, Copy, Debug, PartialEq, Eq)]
pub enum Code {
    None = 100,
    End,
    More,
    NoMove,
}

impl Code {
    // Its number in a reply.
    pub fn number(self) -> u32
        ensures { result ≡ number_of self }
    {
        self as u32
    }
}

// A reply with a value.
pub fn value_alone(value: i64) -> Reply
    ensures { result ≡ value_alone value }
{
    Reply {
        code: 0,
        line: 0,
        value,
    }
}

// A reply without an item or a count.
pub fn code_alone(code: u32) -> Reply
    ensures { result ≡ code_alone code }
{
    refused_at(code, 0)
}

// A refusal, with the line that it tells.
pub fn refused_at(code: u32, line: u32) -> Reply
    ensures { result ≡ refused_at code line }
{
    Reply {
        code,
        line,
        value: 0,
    }
}

// The reply of counting up to the cap: the count, or "more".
pub fn count_reply(count: usize, cap: u16) -> Reply
    ensures { result ≡ count_reply (counted cap count) }
{
    if count <= usize::from(cap) {
        value_alone(count as i64)
    } else {
        code_alone(Code::More.number())
    }
}

// Whether so many bytes are room for k numbers: questions 7 and 17 of one list.
pub fn has_room(k: usize, bytes: usize) -> bool
    ensures { result ≡ room k bytes }
{
    bytes % 4 == 0 && k <= bytes / 4
}

// Whether an enumerator at this place stands on an item.
pub fn on_item(place: Place) -> bool
    ensures { result ≡ on_item place }
{
    matches!(place, Place::Item)
}

// Writes an item and replies its cost.
pub fn hand_numbers(item: &[u32], cost: i64, out: &mut [u8]) -> Reply
    requires { room (length item.now) (length out.old) ≡ true }
    ensures { HandsItem (λ _. cost) (some item.now) 0 out.old result out.new }
{
    bytes_write::write_words(out, item, item.len());
    value_alone(cost)
}

// The same of the first k numbers.
pub fn hand_item(numbers: &[u32], k: usize, cost: i64, out: &mut [u8]) -> Reply
    requires { room k (length out.old) ≡ true }
    ensures { let item = take k numbers.now in HandsItem (λ _. cost) (some item) 0 out.old result out.new }
{
    hand_numbers(&numbers[..k.min(numbers.len())], cost, out)
}
