// The names of a book's entries: where one lies, the name, and the question that refuses it; question 19 as a test.
#![tactic(auto)]

ghost use Rattle.std.specs.Prelude.{◌≡◌};
ghost use Rattle.book_names.specs.Name.{is_entry, NameGiven};
ghost use Rattle.book_names.specs.BookNames.{BookName, BookNameRefusal};

// A part of a book.
#[repr(C)]
#[derive(Clone, Copy)]
pub struct Span {
    pub start: usize,
    pub length: usize,
}

// Question 19: whether a book of so many entries has this one.
pub fn is_entry(entries: usize, entry: u32) -> bool
    ensures { result ≡ is_entry entries entry }
{
    let n = entry as usize;
    (1 <= n) & (n <= entries)
}

// Where the name of an entry lies in the book. Questions 11 to 16 and 19.
// It and `name_refusal` each put the questions: one function for both, with an error type, would be longer than the two matches.
pub fn place(book: &[u8], entry: u32) -> Span
    ensures { BookName book.now entry result }
{
    match book_check::check(book) {
        Ok(checked) if is_entry(checked.count, entry) => {
            let e = checked.entries[entry as usize - 1];
            Span {
                start: e.name,
                length: e.length,
            }
        }
        _ => Span {
            start: 0,
            length: 0,
        },
    }
}

// The name of an entry of a book, counted from 1; the empty part if it is refused.
pub fn name(book: &[u8], entry: u32) -> &[u8]
    ensures { NameGiven book.now entry result.now }
{
    let at = place(book, entry);
    let start = at.start;
    let end = start + at.length;
    &book[start..end]
}

// The number of the question that refuses that name, 0 if none.
pub fn name_refusal(book: &[u8], entry: u32) -> u32
    ensures { BookNameRefusal book.now entry result }
{
    match book_check::check(book) {
        Err(refusal) => refusal.number(),
        Ok(checked) => {
            if is_entry(checked.count, entry) {
                0
            } else {
                19
            }
        }
    }
}
