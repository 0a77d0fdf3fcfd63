// How many bytes the sheets of a way take, without writing them: what each line takes, summed over the entries in book order.
#![tactic(auto)]

ghost use Rattle.std.specs.Prelude.{◌≡◌, ◌+◌, ◌≤◌, length};
ghost use Rattle.text_read.specs.Heads.{line_end};
ghost use Rattle.way_sheets.specs.Lines.{part_line, gap_line};
ghost use Rattle.way_sheets.specs.EntrySize.{play_size, lead_size};
ghost use Rattle.way_sheet_sizes.specs.Sizing.{HasSize, IsSizeOf, FitsIn};

use book_form::CheckedBook;
use book_lines::entries::BookEntry;
use text_read::heads;
use text_size::{item_size, row_size};
use way_gaps::JoinTicks;

// The first line of a part whose number has one digit, and its last line.
fn part_size() -> usize
    ensures { result ≡ length (part_line 1) + length line_end }
{
    item_size(&heads::PART, 1) + heads::NEWLINE.len() + heads::LINE_END.len()
}

// The line of an entry.
fn play_line_size(entry: &BookEntry) -> usize
    requires { entry.now.length ≤ 16 }
    ensures { (result ≡ play_size entry.now.length entry.now.start entry.now.finish) × (result ≤ 60) }
{
    heads::PLAY.len()
        + entry.length
        + item_size(&heads::NAME_END, entry.start)
        + row_size(&heads::SPACE, entry.finish)
}

// The line between two entries.
fn gap_line_size(ticks: JoinTicks) -> usize
    ensures { result ≡ length (gap_line ticks.gap ticks.spare) }
{
    item_size(&heads::GAP, ticks.gap) + row_size(&heads::SPACE, ticks.spare)
}

// What an entry with predecessor i takes beside its line.
fn lead_size(i: u32, ticks: JoinTicks) -> usize
    ensures { (result ≡ lead_size i ticks.gap ticks.spare) × (result ≤ 40) }
{
    if i == 0 {
        return part_size();
    }
    gap_line_size(ticks)
}

// The sheets of a way of a book; `ticks` has the gaps and the spares of the way.
pub fn size_of(book: &CheckedBook, way: &[u32], ticks: &[JoinTicks; 28]) -> usize
    requires { HasSize book.now way.now ticks.now }
    ensures { IsSizeOf book.now way.now ticks.now result }
{
    let mut sum = 0;
    for (k, i) in way.iter().enumerate() {
        sum += lead_size(*i, ticks[k]) + play_line_size(&book.entries[k]);
    }
    sum
}

// Whether the sheets have room in so many bytes. 79 bytes an entry always are enough, so a long list takes no sum.
pub fn fits_in(book: &CheckedBook, way: &[u32], ticks: &[JoinTicks; 28], bytes: usize) -> bool
    requires { HasSize book.now way.now ticks.now }
    ensures { FitsIn book.now way.now ticks.now bytes result }
{
    if 79 * way.len() <= bytes {
        return true;
    }
    size_of(book, way, ticks) <= bytes
}
