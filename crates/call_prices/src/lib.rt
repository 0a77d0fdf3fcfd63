// The prices of a network, worked out from a least-cost flow that is given: those of every least-cost flow.
#![tactic(auto)]

ghost use Rattle.call_prices.specs.PriceCall.{NetworkPrices, Answered};

use call_flow_bytes::FlowRefusal;
use call_reply::Reply;

// The prices of the flow given, and its cost. Questions 1 to 8, of which 7 asks for room for n prices alone. No flow is written, so it is no call of
// a run.
pub fn prices_of(balances: &[u8], arcs: &[u8], given: &[u8], prices: &mut [u8]) -> Reply
    ensures { NetworkPrices balances.now arcs.now given.now prices.old result prices.new }
{
    call_flow_bytes::reply_of(flow_prices(balances, arcs, given, prices))
}

fn flow_prices(
    balances: &[u8],
    arcs: &[u8],
    given: &[u8],
    prices: &mut [u8],
) -> Result<Reply, FlowRefusal>
    ensures { Answered balances.now arcs.now given.now prices.old result prices.new }
{
    let net = net_check::check(balances, arcs)?;
    call_flow_bytes::ask_room(net.nodes, prices.len())?;
    let enumerator = call_flow_bytes::resume_flow(net, given)?;
    call_flow_bytes::hand_prices(&enumerator, prices);
    Ok(call_reply::value_alone(enumerator.cost))
}
