// The calls of the part sheets.
#![tactic(auto)]

ghost use Rattle.call_sheets.specs.SheetCalls.{BookSheetsRoom, BookSheets};
ghost use Rattle.call_sheets.specs.AdmittedWay.{AdmitsWay, Answered};

use book_form::CheckedBook;
use call_reply::Reply;
use call_way_bytes::WayRefusal;

// Puts questions 11 to 16 and 18. It hands out the book alone: what is read of the way afterwards takes no stack while question 18 is put.
fn admit_way(book: &[u8], given: &[u8]) -> Result<CheckedBook, WayRefusal>
    ensures { AdmitsWay book.now given.now result }
{
    let checked = book_check::check(book)?;
    if !call_way_bytes::is_given(&checked, given) {
        return Err(WayRefusal::StrangeWay);
    }
    Ok(checked)
}

// How many bytes the sheets of the least-cost way given take. Questions 11 to 16 and 18.
pub fn room(book: &[u8], given: &[u8]) -> Reply
    ensures { BookSheetsRoom book.now given.now result }
{
    match admit_way(book, given) {
        Ok(checked) => {
            let numbers = bytes_read::read_words(given);
            let way = &numbers[..checked.count];
            let ticks = way_gaps::join_ticks(&checked, way);
            let n = way_sheet_sizes::size_of(&checked, way, &ticks);
            call_reply::value_alone(n as i64)
        }
        Err(refusal) => refusal.reply(),
    }
}

// Writes the sheets of the least-cost way given, and replies how many bytes they take. Questions 11 to 16, 18 and 21.
pub fn write(book: &[u8], given: &[u8], text: &mut [u8]) -> Reply
    ensures { BookSheets book.now given.now text.old result text.new }
{
    call_way_bytes::reply_of(write_sheets(book, given, text))
}

fn write_sheets(book: &[u8], given: &[u8], text: &mut [u8]) -> Result<Reply, WayRefusal>
    ensures { Answered book.now given.now text.old text.new result }
{
    let checked = admit_way(book, given)?;
    let numbers = bytes_read::read_words(given);
    let way = &numbers[..checked.count];
    let ticks = way_gaps::join_ticks(&checked, way);
    if !way_sheet_sizes::fits_in(&checked, way, &ticks, text.len()) {
        return Err(WayRefusal::Text);
    }
    let n = way_sheets::put_sheets(book, &checked, way, &ticks, text);
    Ok(call_reply::value_alone(n as i64))
}
