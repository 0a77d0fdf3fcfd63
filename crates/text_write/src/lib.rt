// Texts and numbers, written one behind another into a lent list of bytes.
#![tactic(auto, using(crate::proofs::Writing::room_first, crate::proofs::Writing::room_then))]

ghost use Rattle.std.specs.Prelude.{◌≡◌, [], ◌∷◌, ◌++◌, ◌+◌, ◌≤◌};
ghost use Rattle.text_read.specs.Heads.{line_end};
ghost use Rattle.text_write.specs.Decimal.{decimal};
ghost use Rattle.text_write.specs.Fit.{fit};
ghost use Rattle.text_write.specs.Writing.{HasRoomFor, Writes};

use text_read::heads;

// A lent list of bytes, and the place behind what is written into it.
#[derive(Drop)]
pub struct Writer<'a> {
    pub out: &'a mut [u8],
    pub at: usize,
}

impl<'a> Writer<'a> {
    // The bytes of `head`, one by one: moved as a block from one list of C's to another, they would make the archive ask C for `memmove`.
    pub fn text(&mut self, head: &[u8])
        requires { HasRoomFor self.old head.now }
        ensures { Writes self.old head.now self.new }
    {
        for byte in head {
            self.out[self.at] = *byte;
            self.at += 1;
        }
    }

    // A digit.
    fn digit(&mut self, d: u64)
        requires { (d ≤ 9) × HasRoomFor self.old ((48 + d) ∷ []) }
        ensures { Writes self.old ((48 + d) ∷ []) self.new }
    {
        self.out[self.at] = b'0' + (d as u8);
        self.at += 1;
    }

    // The digits of n.
    fn number(&mut self, n: u64)
        requires { HasRoomFor self.old (decimal n) }
        ensures { Writes self.old (decimal n) self.new }
    {
        if n < 10 {
            self.digit(n);
            return;
        }
        self.number(n / 10);
        self.digit(n % 10);
    }

    // A text and a number.
    pub fn item(&mut self, head: &[u8], n: u64)
        requires { HasRoomFor self.old (head.now ++ decimal n) }
        ensures { Writes self.old (head.now ++ decimal n) self.new }
    {
        self.text(head);
        self.number(n);
    }

    // A text, a number and the end of the line.
    pub fn row(&mut self, head: &[u8], n: u64)
        requires { HasRoomFor self.old (head.now ++ decimal n ++ line_end) }
        ensures { Writes self.old (head.now ++ decimal n ++ line_end) self.new }
    {
        self.item(head, n);
        self.text(&heads::LINE_END);
    }
}

// A text over the front of a list that has room for it; else the list stays as it is.
pub fn copy_if_room(text: &[u8], out: &mut [u8])
    ensures { out.new ≡ fit text.now out.old }
{
    if text.len() <= out.len() {
        out[..text.len()].copy_from_slice(text);
    }
}
