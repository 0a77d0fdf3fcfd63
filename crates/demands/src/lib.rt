// The three demands, put to the entries that C calls: each function calls entries of `desk` as C does, and ensures what the demands say of the calls.
#![tactic(auto)]

ghost use Rattle.std.proofs.Math.Option.{none, some};
ghost use Rattle.std.specs.Prelude.{◌*◌, ◌/◌, length, take};
ghost use Rattle.laws.specs.Rules.{first, next};
ghost use Rattle.call_reply.specs.Replies.{sees};
ghost use Rattle.call_network.specs.NetworkCalls.{lends};
ghost use Rattle.demands.specs.Demands.{FirstFlowDemands, FirstPricesDemands, NextFlowDemands, CountFlowsDemands, RunFlowsDemands};
ghost use Rattle.demands.specs.Demands.{PricesDemands, PricesAgreeDemands};
ghost use Rattle.demands.specs.Demands.{FirstWayDemands, NextWayDemands, CountWaysDemands, RunWaysDemands};
ghost use Rattle.demands.specs.Demands.{ListWaysDemands, SpareDemands, NameOfDemands, made_of};
ghost use Rattle.demands.specs.Demands.{SheetsRoomDemands, SheetsDemands, WriteInRoomDemands};

use book_names::Span;
use call_reply::Reply;

pub fn first_flow(balances: &[u8], arcs: &[u8], flows: &mut [u8]) -> Reply
    ensures { FirstFlowDemands balances.now arcs.now (lends flows.old none)
        (sees result (lends flows.new none)) }
{
    desk::desk_network_first(balances, arcs, flows)
}

pub fn first_priced_flow(balances: &[u8], arcs: &[u8], flows: &mut [u8], prices: &mut [u8]) -> Reply
    ensures demands { FirstFlowDemands balances.now arcs.now (lends flows.old (some prices.old))
        (sees result (lends flows.new (some prices.new))) }
    ensures prices { FirstPricesDemands balances.now arcs.now (lends flows.old (some prices.old))
        (sees result (lends flows.new (some prices.new))) }
{
    desk::desk_network_first_priced(balances, arcs, flows, prices)
}

pub fn next_flow(balances: &[u8], arcs: &[u8], given: &[u8], flows: &mut [u8]) -> Reply
    ensures { NextFlowDemands balances.now arcs.now given.now flows.old
        (sees result (lends flows.new none)) }
{
    desk::desk_network_next(balances, arcs, given, flows)
}

pub fn prices_of_flow(balances: &[u8], arcs: &[u8], given: &[u8], prices: &mut [u8]) -> Reply
    ensures { PricesDemands balances.now arcs.now given.now prices.old result prices.new }
{
    desk::desk_network_prices(balances, arcs, given, prices)
}

// What the first flow with prices and the prices of a flow given reply.
#[derive(Clone, Copy)]
pub struct FirstAndGiven {
    pub first: Reply,
    pub given: Reply,
}

pub fn prices_agree(
    balances: &[u8],
    arcs: &[u8],
    flows: &mut [u8],
    prices: &mut [u8],
    given: &[u8],
    again: &mut [u8],
) -> FirstAndGiven
    ensures { PricesAgreeDemands balances.now arcs.now given.now
        (lends flows.old (some prices.old)) (sees result.first (lends flows.new (some prices.new)))
        again.old result.given again.new }
{
    let first = desk::desk_network_first_priced(balances, arcs, flows, prices);
    let priced = desk::desk_network_prices(balances, arcs, given, again);
    FirstAndGiven {
        first,
        given: priced,
    }
}

pub fn count_flows(balances: &[u8], arcs: &[u8], cap: u16) -> Reply
    ensures { CountFlowsDemands balances.now arcs.now cap result }
{
    desk::desk_network_count(balances, arcs, cap)
}

pub fn first_way(book: &[u8], way: &mut [u8]) -> Reply
    ensures { FirstWayDemands book.now way.old (sees result way.new) }
{
    desk::desk_first(book, way)
}

pub fn next_way(book: &[u8], given: &[u8], way: &mut [u8]) -> Reply
    ensures { NextWayDemands book.now given.now way.old (sees result way.new) }
{
    desk::desk_next(book, given, way)
}

pub fn count_ways(book: &[u8], cap: u16) -> Reply
    ensures { CountWaysDemands book.now cap result }
{
    desk::desk_count(book, cap)
}

pub fn list_ways(book: &[u8], text: &mut [u8]) -> Reply
    ensures { ListWaysDemands book.now text.old result text.new }
{
    desk::desk_listing(book, text)
}

pub fn spare_between(book: &[u8], earlier: u32, later: u32) -> Reply
    ensures { SpareDemands book.now earlier later result }
{
    desk::desk_spare(book, earlier, later)
}

pub fn room_of_sheets(book: &[u8], given: &[u8]) -> Reply
    ensures { SheetsRoomDemands book.now given.now result }
{
    desk::desk_sheets_room(book, given)
}

pub fn write_sheets(book: &[u8], given: &[u8], text: &mut [u8]) -> Reply
    ensures { SheetsDemands book.now given.now text.old result text.new }
{
    desk::desk_sheets(book, given, text)
}

// What both calls of the sheets of a way reply.
#[derive(Clone, Copy)]
pub struct RoomAndSheets {
    pub room: Reply,
    pub sheets: Reply,
}

pub fn write_in_room(book: &[u8], given: &[u8], text: &mut [u8]) -> RoomAndSheets
    ensures { WriteInRoomDemands book.now given.now text.old result.room result.sheets text.new }
{
    let room = desk::desk_sheets_room(book, given);
    let sheets = desk::desk_sheets(book, given, text);
    RoomAndSheets { room, sheets }
}

// The part of the book that holds the name of an entry, and the number of the question that refuses it, or 0.
#[derive(Clone, Copy)]
pub struct Named {
    pub part: Span,
    pub number: u32,
}

pub fn name_of(book: &[u8], entry: u32) -> Named
    ensures { NameOfDemands book.now entry result.part result.number }
{
    let part = desk::desk_name(book, entry);
    let number = desk::desk_name_refusal(book, entry);
    Named { part, number }
}

// The replies of the calls of a run; where the first one writes nothing, it is the only call, and its reply stands three times.
#[derive(Clone, Copy)]
pub struct RunReplies {
    pub one: Reply,
    pub two: Reply,
    pub three: Reply,
}

// First with prices; then next, given a copy of the flow as it was written; then next with a list of the caller's.
pub fn run_flows(
    balances: &[u8],
    arcs: &[u8],
    flows: &mut [u8],
    prices: &mut [u8],
    after: &mut [u8],
    strange: &[u8],
    last: &mut [u8],
) -> RunReplies
    ensures { RunFlowsDemands balances.now arcs.now strange.now (made_of result.one.code
        (first (lends flows.old (some prices.old)), sees result.one (lends flows.new (some prices.new)))
        (next (take (length arcs.now / 20 * 4) flows.new) after.old, sees result.two (lends after.new none))
        (next strange.now last.old, sees result.three (lends last.new none))) }
{
    let one = desk::desk_network_first_priced(balances, arcs, flows, prices);
    let code = one.code;
    if code != 0 {
        return RunReplies {
            one,
            two: one,
            three: one,
        };
    }
    let n = arcs.len() / 20 * 4;
    let two = desk::desk_network_next(balances, arcs, &flows[..n], after);
    let three = desk::desk_network_next(balances, arcs, strange, last);
    RunReplies { one, two, three }
}

// First; then next, given the list that it wrote to; then next with a list of the caller's.
pub fn run_ways(
    book: &[u8],
    way: &mut [u8],
    after: &mut [u8],
    strange: &[u8],
    last: &mut [u8],
) -> RunReplies
    ensures { RunWaysDemands book.now way.old strange.now (made_of result.one.code
        (first way.old, sees result.one way.new)
        (next way.new after.old, sees result.two after.new)
        (next strange.now last.old, sees result.three last.new)) }
{
    let one = desk::desk_first(book, way);
    let code = one.code;
    if code != 0 {
        return RunReplies {
            one,
            two: one,
            three: one,
        };
    }
    let two = desk::desk_next(book, way, after);
    let three = desk::desk_next(book, strange, last);
    RunReplies { one, two, three }
}
