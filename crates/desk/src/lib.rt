// What C calls, by way of the crate desk_c. Each entry hands the call on, and ensures what the function that takes it ensures.
#![tactic(auto)]

ghost use Rattle.call_network.specs.NetworkEntries.{NetworkFirst, NetworkFirstPriced, NetworkNext, NetworkCount};
ghost use Rattle.call_prices.specs.PriceCall.{NetworkPrices};
ghost use Rattle.call_book.specs.BookEntries.{BookFirst, BookNext, BookCount};
ghost use Rattle.book_names.specs.BookNames.{BookName, BookNameRefusal};
ghost use Rattle.call_listing.specs.Listing.{BookListing};
ghost use Rattle.call_spare.specs.SpareCall.{BookSpare};
ghost use Rattle.call_sheets.specs.SheetCalls.{BookSheetsRoom, BookSheets};

use book_names::Span;
use call_reply::Reply;

pub fn desk_network_first(balances: &[u8], arcs: &[u8], flows: &mut [u8]) -> Reply
    ensures { NetworkFirst balances.now arcs.now flows.old result flows.new }
{
    call_network::first(balances, arcs, flows)
}

pub fn desk_network_first_priced(
    balances: &[u8],
    arcs: &[u8],
    flows: &mut [u8],
    prices: &mut [u8],
) -> Reply
    ensures { NetworkFirstPriced balances.now arcs.now flows.old prices.old result
        flows.new prices.new }
{
    call_network::first_priced(balances, arcs, flows, prices)
}

pub fn desk_network_next(balances: &[u8], arcs: &[u8], given: &[u8], flows: &mut [u8]) -> Reply
    ensures { NetworkNext balances.now arcs.now given.now flows.old result flows.new }
{
    call_network::next(balances, arcs, given, flows)
}

pub fn desk_network_prices(balances: &[u8], arcs: &[u8], given: &[u8], prices: &mut [u8]) -> Reply
    ensures { NetworkPrices balances.now arcs.now given.now prices.old result prices.new }
{
    call_prices::prices_of(balances, arcs, given, prices)
}

pub fn desk_network_count(balances: &[u8], arcs: &[u8], cap: u16) -> Reply
    ensures { NetworkCount balances.now arcs.now cap result }
{
    call_network::count(balances, arcs, cap)
}

pub fn desk_first(book: &[u8], way: &mut [u8]) -> Reply
    ensures { BookFirst book.now way.old result way.new }
{
    call_book::first(book, way)
}

pub fn desk_next(book: &[u8], given: &[u8], way: &mut [u8]) -> Reply
    ensures { BookNext book.now given.now way.old result way.new }
{
    call_book::next(book, given, way)
}

pub fn desk_count(book: &[u8], cap: u16) -> Reply
    ensures { BookCount book.now cap result }
{
    call_book::count(book, cap)
}

pub fn desk_listing(book: &[u8], text: &mut [u8]) -> Reply
    ensures { BookListing book.now text.old result text.new }
{
    call_listing::list(book, text)
}

pub fn desk_spare(book: &[u8], earlier: u32, later: u32) -> Reply
    ensures { BookSpare book.now earlier later result }
{
    call_spare::spare_between(book, earlier, later)
}

pub fn desk_sheets_room(book: &[u8], given: &[u8]) -> Reply
    ensures { BookSheetsRoom book.now given.now result }
{
    call_sheets::room(book, given)
}

pub fn desk_sheets(book: &[u8], given: &[u8], text: &mut [u8]) -> Reply
    ensures { BookSheets book.now given.now text.old result text.new }
{
    call_sheets::write(book, given, text)
}

pub fn desk_name(book: &[u8], entry: u32) -> Span
    ensures { BookName book.now entry result }
{
    book_names::place(book, entry)
}

pub fn desk_name_refusal(book: &[u8], entry: u32) -> u32
    ensures { BookNameRefusal book.now entry result }
{
    book_names::name_refusal(book, entry)
}
