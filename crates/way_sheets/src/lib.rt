// The sheets of a way, written into a lent list of bytes.
#![tactic(auto)]

ghost use Rattle.std.specs.Prelude.{◌≡◌, ◌≤◌, length};
ghost use Rattle.text_write.specs.Writing.{HasRoomFor, Writes};
ghost use Rattle.way_sheets.specs.Lines.{part_line, play_line, gap_line};
ghost use Rattle.way_sheets.specs.Writing.{closing, lead, begun, HasRoom, WritesSheets};

use book_form::CheckedBook;
use book_lines::entries::BookEntry;
use text_read::heads;
use text_write::Writer;
use way_gaps::JoinTicks;

// The first line of part n.
fn put_part_line(writer: &mut Writer, n: u32)
    requires { HasRoomFor writer.old (part_line n) }
    ensures { Writes writer.old (part_line n) writer.new }
{
    writer.item(&heads::PART, n as u64);
    writer.text(&heads::NEWLINE);
}

// The line of an entry.
fn put_play_line(writer: &mut Writer, name: &[u8], entry: &BookEntry)
    requires { HasRoomFor writer.old (play_line name.now entry.now.start entry.now.finish) }
    ensures { Writes writer.old (play_line name.now entry.now.start entry.now.finish) writer.new }
{
    writer.text(&heads::PLAY);
    writer.text(name);
    writer.item(&heads::NAME_END, entry.start as u64);
    writer.row(&heads::SPACE, entry.finish as u64);
}

// The line between two entries.
fn put_gap_line(writer: &mut Writer, ticks: JoinTicks)
    requires { HasRoomFor writer.old (gap_line ticks.gap ticks.spare) }
    ensures { Writes writer.old (gap_line ticks.gap ticks.spare) writer.new }
{
    writer.item(&heads::GAP, ticks.gap as u64);
    writer.row(&heads::SPACE, ticks.spare as u64);
}

// The last line of a part, if any of n was begun.
fn put_closing(writer: &mut Writer, n: u32)
    requires { HasRoomFor writer.old (closing n) }
    ensures { Writes writer.old (closing n) writer.new }
{
    if n != 0 {
        writer.text(&heads::LINE_END);
    }
}

// What stands before the line of an entry with predecessor i, where n parts are begun.
fn put_lead(writer: &mut Writer, n: u32, i: u32, ticks: JoinTicks)
    requires { (n ≤ 28) × HasRoomFor writer.old (lead n i ticks.gap ticks.spare) }
    ensures { Writes writer.old (lead n i ticks.gap ticks.spare) writer.new }
{
    if i == 0 {
        put_closing(writer, n);
        put_part_line(writer, n + 1);
        return;
    }
    put_gap_line(writer, ticks);
}

// How many parts are begun with an entry whose predecessor is i, where n were begun before it.
fn begun(n: u32, i: u32) -> u32
    requires { n ≤ 28 }
    ensures { result ≡ begun n i }
{
    if i == 0 { n + 1 } else { n }
}

// The sheets of a way of a book, at the front of a list that has room for them; how long they are. `text` is the bytes of the book, and
// `ticks` has the gaps and the spares of the way.
pub fn put_sheets(
    text: &[u8],
    book: &CheckedBook,
    way: &[u32],
    ticks: &[JoinTicks; 28],
    out: &mut [u8],
) -> usize
    requires { HasRoom text.now book.now way.now ticks.now (length out.old) }
    ensures { WritesSheets text.now way.now out.old out.new result }
{
    let order = way_parts::playing_order(way);
    let mut writer = Writer { out, at: 0 };
    let mut n = 0;
    for number in &order[..way.len()] {
        let j = *number as usize - 1;
        let i = way[j];
        let entry = &book.entries[j];
        let name = &text[entry.name..entry.name + entry.length];
        put_lead(&mut writer, n, i, ticks[j]);
        put_play_line(&mut writer, name, entry);
        n = begun(n, i);
    }
    put_closing(&mut writer, n);
    writer.at
}
