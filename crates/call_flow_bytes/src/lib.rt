// The flows of a network as the bytes of a call: questions 7 and 8, and a flow and its prices written.
#![tactic(auto)]

ghost use Rattle.std.specs.Prelude.{◌≡◌, true, false, length, MatchResult};
ghost use Rattle.net_model.specs.Struct.{Sound};
ghost use Rattle.flow_enumerate.specs.Enumerator.{Stands};
ghost use Rattle.call_reply.specs.Replies.{code_alone};
ghost use Rattle.call_reply.specs.ByteLists.{room};
ghost use Rattle.call_flow_bytes.specs.Refusals.{number_of};
ghost use Rattle.call_flow_bytes.specs.FlowSteps.{AdmitsNetwork, ResumesFlow, HandsFlow, HandsPrices};

use call_reply::Reply;
use flow_enumerate::Enumerator;
use net_model::Network;
use net_questions::NetworkRefusal;

// The question that a call of a network fails: one of 1 to 6, 7 of a list lent, or 8 of the flow given.
#[derive(Clone, Copy, Debug, PartialEq, Eq)]
pub enum FlowRefusal {
    Network(NetworkRefusal),
    Room,
    StrangeFlow,
}

impl FlowRefusal {
    // The number of the question.
    pub fn number(self) -> u32
        ensures { result ≡ number_of self }
    {
        match self {
            FlowRefusal::Network(refusal) => refusal.number(),
            FlowRefusal::Room => 7,
            FlowRefusal::StrangeFlow => 8,
        }
    }

    pub fn reply(self) -> Reply
        ensures { result ≡ code_alone (number_of self) }
    {
        call_reply::code_alone(self.number())
    }
}

impl From<NetworkRefusal> for FlowRefusal {
    ghost use Rattle.call_flow_bytes.specs.declared.FlowRefusal.TheVariants.{Network};

    ghost from_gives = { λ refusal r. r ≡ Network refusal };

    fn from(refusal: NetworkRefusal) -> FlowRefusal {
        FlowRefusal::Network(refusal)
    }
}

// The reply of a call, answered or refused.
pub fn reply_of(answer: Result<Reply, FlowRefusal>) -> Reply
    ensures { MatchResult answer (λ reply. result ≡ reply) (λ refusal. result ≡ code_alone (number_of refusal)) }
{
    answer.unwrap_or_else(FlowRefusal::reply)
}

// Question 7 of one list, of so many bytes: whether it has room for k numbers.
pub fn ask_room(k: usize, bytes: usize) -> Result<(), FlowRefusal>
    ensures { MatchResult result (λ _. room k bytes ≡ true) (λ refusal. (room k bytes ≡ false) × (refusal ≡ FlowRefusal.Room)) }
{
    if call_reply::has_room(k, bytes) {
        Ok(())
    } else {
        Err(FlowRefusal::Room)
    }
}

// Puts questions 1 to 7, where a list of so many bytes is lent for the flows.
pub fn admit_network(balances: &[u8], arcs: &[u8], bytes: usize) -> Result<Network, FlowRefusal>
    ensures { AdmitsNetwork balances.now arcs.now bytes result }
{
    let net = net_check::check(balances, arcs)?;
    ask_room(net.arcs, bytes)?;
    Ok(net)
}

// Question 8: the enumerator that stands on the flow given.
pub fn resume_flow(net: Network, given: &[u8]) -> Result<Enumerator, FlowRefusal>
    requires { Sound net }
    ensures { ResumesFlow net given.now result }
{
    if given.len() != 4 * net.arcs {
        return Err(FlowRefusal::StrangeFlow);
    }
    let enumerator = flow_enumerate::resume(net, bytes_read::read_words(given));
    if !call_reply::on_item(enumerator.place) {
        return Err(FlowRefusal::StrangeFlow);
    }
    Ok(enumerator)
}

// Writes the flow that the enumerator stands on; without one the reply is `code`.
pub fn hand_flow(enumerator: &Enumerator, flows: &mut [u8], code: u32) -> Reply
    requires { Stands enumerator.now × (room enumerator.now.net.arcs (length flows.old) ≡ true) }
    ensures { HandsFlow enumerator.now code flows.old result flows.new }
{
    if !call_reply::on_item(enumerator.place) {
        return call_reply::code_alone(code);
    }
    call_reply::hand_numbers(
        &enumerator.flow[..enumerator.net.arcs],
        enumerator.cost,
        flows,
    )
}

// Writes the prices of the flow that the enumerator stands on.
pub fn hand_prices(enumerator: &Enumerator, prices: &mut [u8])
    requires { Stands enumerator.now × (room enumerator.now.net.nodes (length prices.old) ≡ true) }
    ensures { HandsPrices enumerator.now prices.old prices.new }
{
    if call_reply::on_item(enumerator.place) {
        bytes_write::write_ints(prices, &enumerator.prices(), enumerator.net.nodes);
    }
}
