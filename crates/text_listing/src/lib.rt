// The lines of a listing.
#![tactic(auto)]

ghost use Rattle.std.specs.Prelude.{◌≤◌, length};
ghost use Rattle.laws.specs.Appended.{Appended};
ghost use Rattle.text_write.specs.Writing.{HasRoomFor, Writes};
ghost use Rattle.text_listing.specs.Lines.{spaced, way_line};
ghost use Rattle.text_listing.specs.TextOfLine.{text_of_line};

use text_read::heads;
use text_write::Writer;

// A line other than that of a way.
#[derive(Clone, Copy)]
pub enum Line {
    Cost(u64),
    End(u64),
    More,
    NoWay,
    Refused(u64),
}

#[tactic(auto, unfolding(text_read::specs::Heads::bytes, crate::specs::Lines::cost_line, crate::specs::Lines::end_line, crate::specs::Lines::more_line, crate::specs::Lines::none_line, crate::specs::Lines::refused_line))]
pub fn put_line(writer: &mut Writer, line: Line)
    requires { HasRoomFor writer.old (text_of_line line) }
    ensures { Writes writer.old (text_of_line line) writer.new }
{
    match line {
        Line::Cost(cost) => writer.row(&heads::COST, cost),
        Line::End(n) => writer.row(&heads::END, n),
        Line::More => writer.text(b"(more 1000)\n"),
        Line::NoWay => writer.text(b"(none)\n"),
        Line::Refused(number) => writer.row(&heads::REFUSED, number),
    }
}

// A line alone, at the front of a list; how long it is.
pub fn put_alone(out: &mut [u8], line: Line) -> usize
    requires { length (text_of_line line) ≤ length out.old }
    ensures { Appended out.old 0 (text_of_line line) out.new result }
{
    let mut writer = Writer { out, at: 0 };
    put_line(&mut writer, line);
    writer.at
}

// A space and a number, for each number of the list.
fn put_all_spaced(writer: &mut Writer, ns: &[u32])
    requires { HasRoomFor writer.old (spaced ns.now) }
    ensures { Writes writer.old (spaced ns.now) writer.new }
{
    for n in ns {
        writer.item(&heads::SPACE, u64::from(*n));
    }
}

// A way and its number of parts.
pub fn put_way(writer: &mut Writer, parts: u32, way: &[u32])
    requires { HasRoomFor writer.old (way_line parts way.now) }
    ensures { Writes writer.old (way_line parts way.now) writer.new }
{
    writer.item(&heads::WAY, u64::from(parts));
    writer.text(&heads::PARTS_END);
    put_all_spaced(writer, way);
    writer.text(&heads::LINE_END);
}
