// What goes through the full list of a network, as a state by value: the item that it stands on, its cost, and marks on arcs, worked out once
// for the whole list: an arc without a mark has one number in all items.
#![tactic(auto)]

ghost use Rattle.std.specs.Prelude.{◌≡◌, false, ◌+◌, ◌≤◌, take, replicate};
ghost use Rattle.laws.specs.Count.{counted};
ghost use Rattle.net_model.specs.FullList.{first_flow, next_flow, count_flows};
ghost use Rattle.net_model.specs.Struct.{net_in, Sound};
ghost use Rattle.flow_least.specs.Answers.{LeastIf};
ghost use Rattle.flow_enumerate.specs.Enumerator.{state_net, state_flow, item_of, word_after, item_after, Stands, Steps, Resumes, PriceArray};

// Where an enumerator stands: on no item yet, on an item, or on none, for there is no item ("none") or no further one ("end").
#[derive(Clone, Copy)]
pub enum Place {
    Start,
    Item,
    None,
    End,
}

#[derive(Clone, Copy)]
pub struct Enumerator {
    pub net: net_model::Network,
    pub place: Place,
    pub cost: i64,
    pub flow: [u32; 512],
    pub free: [bool; 512],
}

// An enumerator that has not begun.
pub fn start(net: net_model::Network) -> Enumerator
    requires { Sound net }
    ensures { Stands result × (result.net ≡ net) × (result.place ≡ Place.Start) × (result.flow ≡ replicate 512 0) × (result.free ≡ replicate 512 false) }
{
    Enumerator {
        net,
        place: Place::Start,
        cost: 0,
        flow: [0u32; 512],
        free: [false; 512],
    }
}

// An enumerator that stands on a given flow, if that is a least-cost flow (question 8); else one that has not begun.
pub fn resume(net: net_model::Network, flow: [u32; 512]) -> Enumerator
    requires { Sound net }
    ensures { Stands result × (result.net ≡ net) × Resumes (net_in net) (take net.arcs flow) result }
{
    // The state is built once and then changed: put together at the end, it would be moved over the network that is passed, by a function that C must bring.
    let mut resumed = start(net);
    let m = resumed.net.arcs;
    let mut free = [false; 512];
    if !flow_least::mark_if_least(
        resumed.net.arcs(),
        resumed.net.balances(),
        &flow[..m],
        &mut free[..m],
    ) {
        return resumed;
    }
    resumed.place = Place::Item;
    resumed.cost = flow_cost::cost_of(resumed.net.arcs(), &flow[..m]);
    resumed.flow = flow;
    resumed.free = free;
    resumed
}

// Question 8 as a test: whether a given flow is an item.
pub fn is_item(net: net_model::Network, flow: [u32; 512]) -> bool
    requires { Sound net }
    ensures { LeastIf (net_in net) (take net.arcs flow) result }
{
    flow_least::is_least(net.arcs(), net.balances(), &flow[..net.arcs])
}

impl Enumerator {
    // The first item.
    pub fn first(self) -> Enumerator
        requires { Stands self }
        ensures { Steps self Place.None (first_flow (state_net self)) result }
    {
        let m = self.net.arcs;
        let mut flow = self.flow;
        let mut free = self.free;
        if !flow_least::first_flow(
            self.net.arcs(),
            self.net.balances(),
            &mut flow[..m],
            &mut free[..m],
        ) {
            return Enumerator {
                place: Place::None,
                cost: 0,
                flow,
                ..self
            };
        }
        Enumerator {
            place: Place::Item,
            cost: flow_cost::cost_of(self.net.arcs(), &flow[..m]),
            flow,
            free,
            ..self
        }
    }

    // The item after the one that it stands on.
    fn follow(self) -> Enumerator
        requires { Stands self × (self.place ≡ Place.Item) }
        ensures { Steps self Place.End (next_flow (state_net self) (state_flow self)) result }
    {
        let m = self.net.arcs;
        let mut flow = self.flow;
        if flow_order::next(self.net.arcs(), &self.free[..m], &mut flow[..m]) {
            Enumerator {
                place: Place::Item,
                flow,
                ..self
            }
        } else {
            Enumerator {
                place: Place::End,
                cost: 0,
                flow,
                ..self
            }
        }
    }

    // The next item; where it stands on none, it stays.
    pub fn next(self) -> Enumerator
        requires { Stands self }
        ensures { Steps self (word_after self.place) (item_after (state_net self) (item_of self)) result }
    {
        match self.place {
            Place::Item => self.follow(),
            _ => self,
        }
    }

    // The prices of the item that it stands on, and 0 beyond its nodes.
    pub fn prices(self) -> [i32; 64]
        requires { Stands self × (self.place ≡ Place.Item) }
        ensures { PriceArray (state_net self) (state_flow self) result }
    {
        flow_prices::prices(self.net.arcs(), &self.flow[..self.net.arcs])
    }

    // How many items there are; one more than the cap if there are more than the cap.
    pub fn count(self, cap: u16) -> usize
        requires { Stands self }
        ensures { (result ≤ cap + 1) × (counted cap result ≡ count_flows (state_net self) cap) }
    {
        let first = self.first();
        match first.place {
            Place::Item => {
                let m = first.net.arcs;
                let mut flow = first.flow;
                match flow_order::count(first.net.arcs(), &first.free[..m], &mut flow[..m], cap) {
                    Some(n) => usize::from(n),
                    None => usize::from(cap) + 1,
                }
            }
            _ => 0,
        }
    }
}
