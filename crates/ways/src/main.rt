// Prints the listing of the book on standard input.
#![tactic(auto)]

ghost use Rattle.std.specs.Prelude.{◌≤◌, length, IfOk};

use std::io;
use std::io::{ErrorKind, Read, Write};

// One byte more than the longest accepted book has: a longer one is read so far, and refused.
fn book_buffer() -> [u8; 16385] {
    [0; 16385]
}

// Room for every text that `printed` gives.
fn text_buffer() -> [u8; call_listing::LISTING_ROOM] {
    [0; call_listing::LISTING_ROOM]
}

// Reads until the list is full or the input ends; how many bytes were read.
fn read_full<R: Read>(input: &mut R, book: &mut [u8]) -> io::Result<usize>
    ensures { IfOk result (λ n. n ≤ length book.new) }
{
    let mut n = 0;
    for _ in 0..u64::MAX {
        if n >= book.len() {
            break;
        }
        match input.read(&mut book[n..]) {
            Ok(0) => break,
            Ok(more) => n += more,
            Err(e) => {
                if e.kind() != ErrorKind::Interrupted {
                    return Err(e);
                }
            }
        }
    }
    Ok(n)
}

// The text of the book, written to the output.
fn print<W: Write>(output: &mut W, book: &[u8], text: &mut [u8]) -> io::Result<()> {
    let n = call_listing::printed(book, text);
    if n <= text.len() {
        output.write_all(&text[..n])?;
    }
    Ok(())
}

fn main(rt: HostRuntime) -> io::Result<()> {
    let mut book = book_buffer();
    let n = read_full(&mut rt.stdin(), &mut book)?;
    let mut text = text_buffer();
    print(&mut rt.stdout(), &book[..n], &mut text)
}
