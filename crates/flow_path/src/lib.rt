// Searches in the residual network, and the walks that they find.
// A residual arc is a code: 2a is arc a forward, 2a + 1 is arc a backward.
#![tactic(auto)]

ghost use Rattle.std.specs.Prelude.{◌≡◌, [], ◌≤◌, ◌<◌, length};
ghost use Rattle.net_model.specs.Struct.{net_from};
ghost use Rattle.net_theory.specs.Reach.{Spread};
ghost use Rattle.net_theory.specs.Ready.{Searchable};
ghost use Rattle.flow_path.specs.Reaching.{NoneReached, SearchTree, SpreadArc, Round, Reach, Traceable, Trace, FindsWalk};

use net_model::Arc;

// What a search has reached: how many nodes, the rank of each, and the code that led to it. A rank is 0 at a node that is not reached, 1 where the
// search starts, and grows in the order of reaching. Ranks are compared as numbers, with 0 below them all, as `Tree` (net_theory) has them, over two
// lists: an Option in its place, or one array of both, is no plainer.
#[derive(Drop)]
struct Search {
    count: usize,
    rank: [usize; 64],
    via: [usize; 64],
}

impl Search {
    // Code c leads from u to v, and goes if `on`: v is reached if u is.
    // `count` is at most 64 before an arc, and so at most 65 before its second code.
    fn spread(&mut self, on: bool, u: usize, v: usize, c: usize)
        requires { (u < 64) × (v < 64) × (self.old.count ≤ 65) }
        ensures { Spread on self.old.rank self.old.via self.old.count u v c self.new.rank self.new.via self.new.count }
    {
        if on && self.rank[u] != 0 && self.rank[v] == 0 {
            self.count += 1;
            self.rank[v] = self.count;
            self.via[v] = c;
        }
    }

    // Both codes of arc a, tried in order if it is free.
    fn spread_arc(&mut self, arcs: &[Arc], free: &[bool], flow: &[u32], a: usize)
        requires { let N = net_from [] arcs.now in
            Searchable N flow.now free.now × (self.old.count ≤ 64) × (a < length arcs.now) }
        ensures { let N = net_from [] arcs.now in
            SpreadArc N flow.now free.now a self.old.rank self.old.via self.old.count self.new.rank self.new.via self.new.count }
    {
        if !free[a] {
            return;
        }
        let arc = arcs[a];
        let f = flow[a];
        let u = usize::from(arc.tail);
        let v = usize::from(arc.head);
        self.spread(f < arc.up, u, v, a + a);
        self.spread(arc.low < f, v, u, a + a + 1);
    }

    // Every code of the arcs from `from` on, tried once, or until t is reached.
    fn round(&mut self, arcs: &[Arc], free: &[bool], flow: &[u32], s: usize, t: usize, from: usize)
        requires { let N = net_from [] arcs.now in
            Searchable N flow.now free.now × (t < 64) × SearchTree N flow.now free.now s from self.old.rank self.old.via self.old.count }
        ensures { let N = net_from [] arcs.now in
            Round N flow.now free.now s t from self.old.count self.new.rank self.new.via self.new.count }
    {
        for a in from..arcs.len() {
            self.spread_arc(arcs, free, flow, a);
            if self.rank[t] != 0 {
                return;
            }
        }
    }

    // The nodes reached from s over the free arcs from `from` on, until t is among them or there are no more. No node has a rank before.
    fn reach(&mut self, arcs: &[Arc], free: &[bool], flow: &[u32], s: usize, t: usize, from: usize)
        requires { let N = net_from [] arcs.now in
            Searchable N flow.now free.now × (s < 64) × (t < 64) × NoneReached self.old.rank }
        ensures { let N = net_from [] arcs.now in
            Reach N flow.now free.now s t from self.new.rank self.new.via self.new.count }
    {
        self.rank[s] = 1;
        self.count = 1;
        loop {
            let before = self.count;
            self.round(arcs, free, flow, s, t, from);
            if self.count == before || self.rank[t] != 0 {
                return;
            }
        }
    }

    // The codes that led from the root to t, the last first. How many.
    fn trace(&self, arcs: &[Arc], t: usize, codes: &mut [usize]) -> usize
        requires { let N = net_from [] arcs.now in
            Traceable N self.now.rank self.now.via t × (length codes.old ≡ 64) }
        ensures { let N = net_from [] arcs.now in
            Trace N self.now.rank self.now.via t codes.old codes.new result }
    {
        let mut v = t;
        let mut len = 0;
        while 1 < self.rank[v] {
            let c = self.via[v];
            codes[len] = c;
            len += 1;
            v = net_model::source(arcs, c);
        }
        len
    }
}

// A walk from s to t over the free arcs from `from` on, the last code first: how many codes it has.
pub fn find_walk(
    arcs: &[Arc],
    free: &[bool],
    flow: &[u32],
    s: usize,
    t: usize,
    from: usize,
    codes: &mut [usize],
) -> Option<usize>
    requires { let N = net_from [] arcs.now in
        Searchable N flow.now free.now × (s < 64) × (t < 64) × (length codes.old ≡ 64) }
    ensures { let N = net_from [] arcs.now in
        FindsWalk N flow.now free.now s t from codes.old codes.new result }
{
    let mut search = Search {
        count: 0,
        rank: [0; 64],
        via: [0; 64],
    };
    search.reach(arcs, free, flow, s, t, from);
    if search.rank[t] == 0 {
        return None;
    }
    Some(search.trace(arcs, t, codes))
}
