// The lines of entries: question 15, and the entries that they make.
ghost use Rattle.std.specs.Prelude.{◌≡◌, ◌+◌, ◌≤◌, ◌<◌, length, MatchOption};
ghost use Rattle.text_read.specs.Reader.{fails, ◌<|>◌, ReadsFront};
ghost use Rattle.book_lines.specs.Lines.{short_form, long_form, entry};
ghost use Rattle.book_lines.specs.Passes.{numbers_of, EntryRead, fair_line, told, EntriesRead};

use crate::verdict::{first_bad, is_instrument};
use text_read::{heads, read_numbers, read_text, read_word};

// The line of an entry, of either form: a join arrives at the first instrument, and leaves from the second. `left` is how many bytes of the
// book are left where the name begins.
#[derive(Clone, Copy)]
pub struct EntryLine {
    pub left: usize,
    pub length: usize,
    pub arrives: u32,
    pub leaves: u32,
    pub start: u32,
    pub finish: u32,
}

// The numbers of an entry, of either form.
#[derive(Clone, Copy)]
struct EntryNumbers {
    arrives: u32,
    leaves: u32,
    start: u32,
    finish: u32,
}

// An entry of a book: `name` says where in the book its name begins, and `length` how many bytes it has.
#[derive(Clone, Copy)]
pub struct BookEntry {
    pub arrives: u32,
    pub leaves: u32,
    pub start: u32,
    pub finish: u32,
    pub name: usize,
    pub length: usize,
}

// The first 28 entries; `count` is how many there are, and `bad` the first line that fails.
#[derive(Clone, Copy)]
pub struct Entries {
    pub entries: [BookEntry; 28],
    pub count: usize,
    pub bad: Option<u32>,
    pub used: usize,
}

// The numbers behind a name: three are the short form, whose first number stands for both instruments, and four the long form.
fn read_form(rest: &[u8]) -> Option<(EntryNumbers, &[u8])>
    ensures { ReadsFront rest.now ((short_form <|> long_form) rest.now) result (λ r. numbers_of r.0) (λ r. r.1.now) }
{
    let (row, after) = read_numbers(rest, &heads::NAME_END)?;
    let n = row.numbers;
    if row.count == 3 {
        let short = EntryNumbers {
            arrives: n[0],
            leaves: n[0],
            start: n[1],
            finish: n[2],
        };
        return Some((short, after));
    }
    if row.count == 4 {
        let long = EntryNumbers {
            arrives: n[0],
            leaves: n[1],
            start: n[2],
            finish: n[3],
        };
        return Some((long, after));
    }
    None
}

// The entry at the front of `rest`.
fn read_entry(rest: &[u8]) -> Option<(EntryLine, &[u8])>
    ensures { MatchOption result (entry rest.now ≡ fails) (λ r. EntryRead rest.now r.0 r.1.now) }
{
    let named = read_text(rest, &heads::ENTRY)?;
    let (name, after) = read_word(named)?;
    let (numbers, after) = read_form(after)?;
    let e = EntryLine {
        left: named.len(),
        length: name.len(),
        arrives: numbers.arrives,
        leaves: numbers.leaves,
        start: numbers.start,
        finish: numbers.finish,
    };
    Some((e, after))
}

fn is_fair(e: EntryLine) -> bool
    ensures { result ≡ fair_line e }
{
    is_instrument(e.arrives)
        & is_instrument(e.leaves)
        & (e.start < e.finish)
        & (e.finish <= 1_000_000)
}

// The entry of a line, of a book of `total` bytes.
fn told(total: usize, e: EntryLine) -> BookEntry
    requires { e.left ≤ total }
    ensures { result ≡ told total e }
{
    BookEntry {
        arrives: e.arrives,
        leaves: e.leaves,
        start: e.start,
        finish: e.finish,
        name: total - e.left,
        length: e.length,
    }
}

// The entries at the front of `book`, whose first line is `first`; the whole book has `total` bytes.
pub fn read_entries(book: &[u8], first: u32, total: usize) -> Entries
    requires { (1 ≤ first) × (first + length book.now < 4294967296) × (length book.now ≤ total) }
    ensures { EntriesRead book.now first total result }
{
    let blank = BookEntry {
        arrives: 0,
        leaves: 0,
        start: 0,
        finish: 0,
        name: 0,
        length: 0,
    };
    let mut entries = [blank; 28];
    let mut count: usize = 0;
    let mut line = first;
    let mut bad: Option<u32> = None;
    let mut rest = book;
    while let Some((e, after)) = read_entry(rest) {
        if count < 28 {
            entries[count] = told(total, e);
        }
        bad = first_bad(bad, is_fair(e), line);
        count += 1;
        line += 1;
        rest = after;
    }
    Entries {
        entries,
        count,
        bad,
        used: book.len() - rest.len(),
    }
}
