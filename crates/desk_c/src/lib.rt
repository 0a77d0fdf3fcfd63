// The entries of the crate desk under their C names. Each calls the function of its name there, and ensures what that ensures.
#![tactic(auto)]

ghost use Rattle.call_network.specs.NetworkEntries.{NetworkFirst, NetworkFirstPriced, NetworkNext, NetworkCount};
ghost use Rattle.call_prices.specs.PriceCall.{NetworkPrices};
ghost use Rattle.call_book.specs.BookEntries.{BookFirst, BookNext, BookCount};
ghost use Rattle.book_names.specs.BookNames.{BookName, BookNameRefusal};
ghost use Rattle.call_listing.specs.Listing.{BookListing};
ghost use Rattle.call_spare.specs.SpareCall.{BookSpare};
ghost use Rattle.call_sheets.specs.SheetCalls.{BookSheetsRoom, BookSheets};

use book_names::Span;
use call_reply::Reply;

#[unsafe(no_mangle)]
pub extern "C" fn desk_network_first(balances: &[u8], arcs: &[u8], flows: &mut [u8]) -> Reply
    ensures { NetworkFirst balances.now arcs.now flows.old result flows.new }
{
    desk::desk_network_first(balances, arcs, flows)
}

#[unsafe(no_mangle)]
pub extern "C" fn desk_network_first_priced(
    balances: &[u8],
    arcs: &[u8],
    flows: &mut [u8],
    prices: &mut [u8],
) -> Reply
    ensures { NetworkFirstPriced balances.now arcs.now flows.old prices.old result
        flows.new prices.new }
{
    desk::desk_network_first_priced(balances, arcs, flows, prices)
}

#[unsafe(no_mangle)]
pub extern "C" fn desk_network_next(
    balances: &[u8],
    arcs: &[u8],
    given: &[u8],
    flows: &mut [u8],
) -> Reply
    ensures { NetworkNext balances.now arcs.now given.now flows.old result flows.new }
{
    desk::desk_network_next(balances, arcs, given, flows)
}

#[unsafe(no_mangle)]
pub extern "C" fn desk_network_prices(
    balances: &[u8],
    arcs: &[u8],
    given: &[u8],
    prices: &mut [u8],
) -> Reply
    ensures { NetworkPrices balances.now arcs.now given.now prices.old result prices.new }
{
    desk::desk_network_prices(balances, arcs, given, prices)
}

#[unsafe(no_mangle)]
pub extern "C" fn desk_network_count(balances: &[u8], arcs: &[u8], cap: u16) -> Reply
    ensures { NetworkCount balances.now arcs.now cap result }
{
    desk::desk_network_count(balances, arcs, cap)
}

#[unsafe(no_mangle)]
pub extern "C" fn desk_first(book: &[u8], way: &mut [u8]) -> Reply
    ensures { BookFirst book.now way.old result way.new }
{
    desk::desk_first(book, way)
}

#[unsafe(no_mangle)]
pub extern "C" fn desk_next(book: &[u8], given: &[u8], way: &mut [u8]) -> Reply
    ensures { BookNext book.now given.now way.old result way.new }
{
    desk::desk_next(book, given, way)
}

#[unsafe(no_mangle)]
pub extern "C" fn desk_count(book: &[u8], cap: u16) -> Reply
    ensures { BookCount book.now cap result }
{
    desk::desk_count(book, cap)
}

#[unsafe(no_mangle)]
pub extern "C" fn desk_listing(book: &[u8], text: &mut [u8]) -> Reply
    ensures { BookListing book.now text.old result text.new }
{
    desk::desk_listing(book, text)
}

#[unsafe(no_mangle)]
pub extern "C" fn desk_spare(book: &[u8], earlier: u32, later: u32) -> Reply
    ensures { BookSpare book.now earlier later result }
{
    desk::desk_spare(book, earlier, later)
}

#[unsafe(no_mangle)]
pub extern "C" fn desk_sheets_room(book: &[u8], given: &[u8]) -> Reply
    ensures { BookSheetsRoom book.now given.now result }
{
    desk::desk_sheets_room(book, given)
}

#[unsafe(no_mangle)]
pub extern "C" fn desk_sheets(book: &[u8], given: &[u8], text: &mut [u8]) -> Reply
    ensures { BookSheets book.now given.now text.old result text.new }
{
    desk::desk_sheets(book, given, text)
}

#[unsafe(no_mangle)]
pub extern "C" fn desk_name(book: &[u8], entry: u32) -> Span
    ensures { BookName book.now entry result }
{
    desk::desk_name(book, entry)
}

#[unsafe(no_mangle)]
pub extern "C" fn desk_name_refusal(book: &[u8], entry: u32) -> u32
    ensures { BookNameRefusal book.now entry result }
{
    desk::desk_name_refusal(book, entry)
}
