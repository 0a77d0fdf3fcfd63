// The calls of a network, as `desk` hands them to C: each ensures what a caller sees of it, refused calls included.
#![tactic(auto)]

ghost use Rattle.std.proofs.Math.Option.{none, some};
ghost use Rattle.laws.specs.Rules.{first, next};
ghost use Rattle.call_network.specs.NetworkCalls.{lends};
ghost use Rattle.call_network.specs.NetworkEntries.{NetworkFirst, NetworkFirstPriced, NetworkNext, NetworkCount, Answered};

use call_flow_bytes::FlowRefusal;
use call_reply::{Code, Reply};

// The first least-cost flow, or "none". Questions 1 to 7.
pub fn first(balances: &[u8], arcs: &[u8], flows: &mut [u8]) -> Reply
    ensures { NetworkFirst balances.now arcs.now flows.old result flows.new }
{
    call_flow_bytes::reply_of(first_flow(balances, arcs, flows))
}

fn first_flow(balances: &[u8], arcs: &[u8], flows: &mut [u8]) -> Result<Reply, FlowRefusal>
    ensures { Answered balances.now arcs.now (first (lends flows.old none)) (lends flows.new none) result }
{
    let net = call_flow_bytes::admit_network(balances, arcs, flows.len())?;
    let enumerator = flow_enumerate::start(net).first();
    Ok(call_flow_bytes::hand_flow(&enumerator, flows, Code::None.number()))
}

// The same, with its prices.
pub fn first_priced(balances: &[u8], arcs: &[u8], flows: &mut [u8], prices: &mut [u8]) -> Reply
    ensures { NetworkFirstPriced balances.now arcs.now flows.old prices.old result flows.new prices.new }
{
    call_flow_bytes::reply_of(first_flow_priced(balances, arcs, flows, prices))
}

fn first_flow_priced(
    balances: &[u8],
    arcs: &[u8],
    flows: &mut [u8],
    prices: &mut [u8],
) -> Result<Reply, FlowRefusal>
    ensures { Answered balances.now arcs.now (first (lends flows.old (some prices.old))) (lends flows.new (some prices.new)) result }
{
    let net = call_flow_bytes::admit_network(balances, arcs, flows.len())?;
    call_flow_bytes::ask_room(net.nodes, prices.len())?;
    let enumerator = flow_enumerate::start(net).first();
    call_flow_bytes::hand_prices(&enumerator, prices);
    Ok(call_flow_bytes::hand_flow(&enumerator, flows, Code::None.number()))
}

// The least-cost flow after the one given, or "end". Questions 1 to 8.
pub fn next(balances: &[u8], arcs: &[u8], given: &[u8], flows: &mut [u8]) -> Reply
    ensures { NetworkNext balances.now arcs.now given.now flows.old result flows.new }
{
    call_flow_bytes::reply_of(next_flow(balances, arcs, given, flows))
}

fn next_flow(
    balances: &[u8],
    arcs: &[u8],
    given: &[u8],
    flows: &mut [u8],
) -> Result<Reply, FlowRefusal>
    ensures { Answered balances.now arcs.now (next given.now flows.old) (lends flows.new none) result }
{
    let net = call_flow_bytes::admit_network(balances, arcs, flows.len())?;
    let enumerator = call_flow_bytes::resume_flow(net, given)?;
    Ok(call_flow_bytes::hand_flow(&enumerator.next(), flows, Code::End.number()))
}

// How many least-cost flows there are, up to the cap. Questions 1 to 6.
pub fn count(balances: &[u8], arcs: &[u8], cap: u16) -> Reply
    ensures { NetworkCount balances.now arcs.now cap result }
{
    match net_check::check(balances, arcs) {
        Ok(net) => call_reply::count_reply(flow_enumerate::start(net).count(cap), cap),
        Err(refusal) => call_reply::code_alone(refusal.number()),
    }
}
