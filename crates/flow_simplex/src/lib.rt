// A guess of a least-cost flow: the primal network simplex. Its numbers wrap, and all that is promised of the guess is that it is within
// the bounds: whoever needs a flow tests it.
#![tactic(auto)]

ghost use Rattle.std.specs.Prelude.{◌≡◌, ℕ, ◌/◌, ◌<◌, ◌≤◌, length, IfSome};
ghost use Rattle.net_model.specs.Network.{low, up};
ghost use Rattle.net_model.specs.Struct.{net_from};
ghost use Rattle.net_theory.specs.Bounds.{InBounds};

use net_model::Arc;

// The nodes of the tree are those of the network and the root; after the network's m arcs, arc m + v joins node v to the root. Code 2a is the arc a from its tail to
// its head, 2a + 1 the same arc back. There are at most 2 × (512 + 64) codes; the arrays have the next power of two of places. The
// arrays of nodes have 256 places, so that any u8 reads them.
const ROOT: u8 = 64;

// More than any walk costs that comes to no node twice.
const BIG: i32 = 100000000;

// More arcs than any path up the tree has. That the nodes above each other end at the root is not proved, so each walk up is counted.
const MOST_UP: usize = 65;

// The most pivots: some 1,300 are enough for a random network of 512 arcs.
const MOST_PIVOTS: usize = 20000;

// A code, by its number.
#[derive(Clone, Copy)]
struct Code {
    number: usize,
    ghost in_range: { number < 2048 },
}

impl Code {
    // The same arc the other way.
    fn back(self) -> Code {
        Code {
            number: self.number ^ 1,
        }
    }
}

// A path up the tree to the node `join`: `amount` can go along it, which is the residual capacity of the arc above the node `leave` or,
// if there is none, the most that was asked for.
#[derive(Clone, Copy)]
struct PathToJoin {
    join: u8,
    leave: Option<u8>,
    amount: u32,
}

// The arc above the node `leave`, and the code of the entering arc, which leads into the subtree of `leave`.
#[derive(Clone, Copy)]
struct Leaving {
    leave: u8,
    into: Code,
}

// The cycle of an entering arc: its sides meet at `join`, and `amount` can go round it. `leaving` is what leaves the tree, none if that is
// the entering arc itself.
#[derive(Clone, Copy)]
struct Cycle {
    join: u8,
    amount: u32,
    leaving: Option<Leaving>,
}

// The codes of so many arcs and of the nodes, and the tree. Of a code: its head, its residual capacity, its cost. Of a node: the code from it
// to the node above it, its potential, and its subtree as a set of nodes. Each has an array of its own: with arrays of structs a guess took a
// seventh to a third longer.
#[derive(Drop)]
struct Simplex {
    arcs: usize,
    head: [u8; 2048],
    capacity: [u32; 2048],
    cost: [i32; 2048],
    up: [Code; 256],
    potential: [i32; 256],
    below: [u64; 256],
    ghost few: { arcs ≤ 512 },
}

impl Simplex {
    // So many arcs, before they are set, and no tree.
    fn new(arcs: usize) -> Simplex
        requires { arcs ≤ 512 }
    {
        Simplex {
            arcs,
            head: [ROOT; 2048],
            capacity: [0; 2048],
            cost: [0; 2048],
            up: [Code { number: 0 }; 256],
            potential: [0; 256],
            below: [u64::MAX; 256],
        }
    }

    // The code from x to the node above it.
    fn up_from(&self, x: u8) -> Code {
        self.up[usize::from(x)]
    }

    // The node to which the code leads.
    fn head_of(&self, code: Code) -> u8 {
        self.head[code.number]
    }

    // The node above x.
    fn parent_of(&self, x: u8) -> u8 {
        self.head_of(self.up_from(x))
    }

    // The subtree of x, as a set of nodes.
    fn subtree_of(&self, x: u8) -> u64 {
        self.below[usize::from(x)]
    }

    // Whether the subtree of x has v.
    fn is_below(&self, x: u8, v: u8) -> bool {
        (self.subtree_of(x) >> (v % 64)) & 1 == 1
    }

    // The potential of x.
    fn potential_of(&self, x: u8) -> i32 {
        self.potential[usize::from(x)]
    }

    // The cost of the code at the potentials.
    fn reduced(&self, code: Code) -> i32 {
        let from = self.potential_of(self.head_of(code.back()));
        let to = self.potential_of(self.head_of(code));
        from.wrapping_add(self.cost[code.number]).wrapping_sub(to)
    }

    // Sends d along the code.
    fn push(&mut self, code: Code, d: u32)
        ensures { self.new.arcs ≡ self.old.arcs }
    {
        let i = code.number;
        let j = code.back().number;
        self.capacity[i] = self.capacity[i].wrapping_sub(d);
        self.capacity[j] = self.capacity[j].wrapping_add(d);
    }

    // Takes the step at each node from `from` up to the one below `join`.
    fn walk_up<F: Fn(&mut Simplex, u8)>(&mut self, from: u8, join: u8, step: F)
        requires callable { F.IsAlwaysCallable step }
        requires keeps { (s : _) (x : _) (t : _) → F.post step s x tt t → t.now.arcs ≡ s.now.arcs }
        ensures { self.new.arcs ≡ self.old.arcs }
    {
        let mut x = from;
        for _ in 0..MOST_UP {
            if x == join {
                return;
            }
            step(self, x);
            x = self.parent_of(x);
        }
    }

    // Sends d from `from` up to `join`.
    fn push_up(&mut self, from: u8, join: u8, d: u32)
        ensures { self.new.arcs ≡ self.old.arcs }
    {
        self.walk_up(from, join, |simplex, x| simplex.push(simplex.up_from(x), d));
    }

    // What can go by the arc above x, upwards or down.
    fn tree_capacity(&self, x: u8, upwards: bool) -> u32 {
        let up = self.up_from(x);
        let code = if upwards { up } else { up.back() };
        self.capacity[code.number]
    }

    // From `from` up to the join, the first node whose subtree has `to`, for at most `most`. Of the arcs with the least capacity, the last
    // on the cycle is taken: down from the join, by the entering arc, and up again. Then no tree comes back.
    fn path_to_join(&self, from: u8, to: u8, upwards: bool, most: u32) -> PathToJoin {
        let mut x = from;
        let mut leave = None;
        let mut amount = most;
        for _ in 0..MOST_UP {
            if self.is_below(x, to) {
                break;
            }
            let r = self.tree_capacity(x, upwards);
            if r < amount || (upwards && r == amount) {
                amount = r;
                leave = Some(x);
            }
            x = self.parent_of(x);
        }
        PathToJoin {
            join: x,
            leave,
            amount,
        }
    }

    // The cycle of e when it enters the tree.
    fn cycle_of(&self, e: Code) -> Cycle {
        let u = self.head_of(e.back());
        let w = self.head_of(e);
        let down = self.path_to_join(u, w, false, self.capacity[e.number]);
        let above = self.path_to_join(w, u, true, down.amount);
        let leaving = match (above.leave, down.leave) {
            (Some(leave), _) => Some(Leaving { leave, into: e }),
            (None, Some(leave)) => Some(Leaving {
                leave,
                into: e.back(),
            }),
            (None, None) => None,
        };
        Cycle {
            join: above.join,
            amount: above.amount,
            leaving,
        }
    }

    // Sends d round the cycle of e, whose sides meet at `join`.
    fn push_round(&mut self, e: Code, join: u8, d: u32)
        ensures { self.new.arcs ≡ self.old.arcs }
    {
        if d == 0 {
            return;
        }
        self.push(e, d);
        self.push_up(self.head_of(e.back()), join, d.wrapping_neg());
        self.push_up(self.head_of(e), join, d);
    }

    // From `from` up to `join`, takes `part` out of the subtrees that have it, and puts it into those that have it not.
    fn change_subtrees(&mut self, from: u8, join: u8, part: u64)
        ensures { self.new.arcs ≡ self.old.arcs }
    {
        self.walk_up(from, join, |simplex, x| {
            simplex.below[usize::from(x)] = simplex.subtree_of(x) ^ part;
        });
    }

    // Joins x to its parent by the code `via`, with its new subtree.
    fn set_parent(&mut self, x: u8, via: Code, subtree: u64)
        ensures { self.new.arcs ≡ self.old.arcs }
    {
        self.up[usize::from(x)] = via;
        self.below[usize::from(x)] = subtree;
    }

    // Joins the subtree `part` of `leave` to the rest of the tree by the code e that leads into it: the arcs from there up to `leave` are
    // reversed.
    fn update_parents(&mut self, leave: u8, part: u64, e: Code)
        ensures { self.new.arcs ≡ self.old.arcs }
    {
        let mut code = e;
        let mut rest = part;
        for _ in 0..MOST_UP {
            let x = self.head_of(code);
            let next = self.up_from(x);
            let s = self.subtree_of(x);
            self.set_parent(x, code.back(), rest);
            if x == leave {
                return;
            }
            rest = part & !s;
            code = next;
        }
    }

    // The potentials of the nodes of `part`, changed by d.
    fn shift_potentials(&mut self, part: u64, d: i32)
        ensures { self.new.arcs ≡ self.old.arcs }
    {
        let mut rest = part;
        while rest != 0 {
            let v = rest.trailing_zeros() as usize;
            self.potential[v] = self.potential[v].wrapping_add(d);
            rest &= rest - 1;
        }
    }

    // Brings the arc of e into the tree in the place of the arc above `leave`; e leads into the subtree of `leave`.
    fn exchange(&mut self, e: Code, leave: u8, join: u8)
        ensures { self.new.arcs ≡ self.old.arcs }
    {
        let part = self.subtree_of(leave);
        self.change_subtrees(self.parent_of(leave), join, part);
        self.change_subtrees(self.head_of(e.back()), join, part);
        self.update_parents(leave, part, e);
        self.shift_potentials(part, self.reduced(e));
    }

    // Lets e enter: sends round its cycle what can go, and takes an arc that is then full or empty out of the tree.
    fn pivot(&mut self, e: Code)
        ensures { self.new.arcs ≡ self.old.arcs }
    {
        let cycle = self.cycle_of(e);
        self.push_round(e, cycle.join, cycle.amount);
        if let Some(Leaving { leave, into }) = cycle.leaving {
            self.exchange(into, leave, cycle.join);
        }
    }

    // The code of arc a that may enter: the cost falls by it.
    fn eligible(&self, a: usize) -> Option<Code>
        requires { a < 1024 }
        ensures { IfSome result (λ e. e.number / 2 ≡ a) }
    {
        let reduced = self.reduced(Code { number: 2 * a });
        let number = if reduced < 0 { 2 * a } else { 2 * a + 1 };
        if self.capacity[number] != 0 && reduced != 0 {
            Some(Code { number })
        } else {
            None
        }
    }

    // The code of the first arc that has one, from `from` on and before `end`.
    fn first_eligible(&self, from: usize, end: usize) -> Option<Code>
        requires { end ≤ 1024 }
        ensures { IfSome result (λ e. (from ≤ e.number / 2) × (e.number / 2 < end)) }
    {
        (from..end).find_map(|a| self.eligible(a))
    }

    // The code that enters: that of the first arc that has one, from `from` on and then from 0.
    fn entering(&self, from: usize) -> Option<Code>
        requires { from ≤ self.now.arcs }
        ensures { IfSome result (λ e. e.number / 2 < self.now.arcs) }
    {
        self.first_eligible(from, self.arcs)
            .or_else(|| self.first_eligible(0, from))
    }

    // Pivots until no arc may enter.
    fn improve(&mut self) {
        let mut from = 0;
        for _ in 0..MOST_PIVOTS {
            let Some(e) = self.entering(from) else {
                return;
            };
            self.pivot(e);
            from = e.number / 2 + 1;
        }
    }

    // The arcs of the network, with what they can carry above the lower bounds; the lower bounds themselves are carried.
    fn set_arcs(&mut self, arcs: &[Arc], excess: &mut [u32; 256])
        requires { length arcs.now ≤ 512 }
    {
        for (a, arc) in arcs.iter().enumerate() {
            self.head[2 * a] = arc.head;
            self.head[2 * a + 1] = arc.tail;
            self.capacity[2 * a] = arc.up.wrapping_sub(arc.low);
            self.cost[2 * a] = arc.cost;
            self.cost[2 * a + 1] = arc.cost.wrapping_neg();
            carry(excess, arc.tail, arc.head, arc.low);
        }
    }

    // The artificial arc by which the root is the parent of v, with the code given: it carries the excess x, from v to the root or from
    // the root to v.
    fn set_artificial_arc(&mut self, x: u32, v: u8, code: Code)
        requires { v < 64 }
    {
        let into = x.cast_signed() < 0;
        self.head[code.back().number] = v;
        self.capacity[code.number] = if into { x.wrapping_neg() } else { !x };
        self.capacity[code.back().number] = x;
        self.up[usize::from(v)] = code;
        self.potential[usize::from(v)] = if into { BIG } else { -BIG };
        self.below[usize::from(v)] = 1 << v;
    }

    // The initial tree: the root is the parent of every node.
    fn initial_tree(&mut self, excess: &[u32; 256], n: u8)
        requires { n ≤ 64 }
    {
        for v in 0..n {
            let code = Code {
                number: 2 * (self.arcs + usize::from(v)),
            };
            self.set_artificial_arc(excess[usize::from(v)], v, code);
        }
    }
}

// The excess of each node where no arc carries anything: its balance; and the sum of the balances.
fn set_excess(balances: &[i32], excess: &mut [u32; 256]) -> u32 {
    let mut sum: u32 = 0;
    for (x, balance) in excess.iter_mut().zip(balances) {
        *x = balance.cast_unsigned();
        sum = sum.wrapping_add(*x);
    }
    sum
}

// Takes x from node t to node h.
fn carry(excess: &mut [u32; 256], t: u8, h: u8, x: u32) {
    let out = usize::from(t);
    let into = usize::from(h);
    excess[out] = excess[out].wrapping_sub(x);
    excess[into] = excess[into].wrapping_add(x);
}

// A list within the bounds, and mostly a least-cost flow where there is a flow: there is none where the balances do not sum to 0. The
// residual capacity of code 2a + 1 is what arc a carries above its lower bound.
pub fn guess(arcs: &[Arc], balances: &[i32], flow: &mut [u32])
    requires { let N = net_from balances.now arcs.now in
        (length arcs.now ≤ 512) × (length balances.now ≤ 64) × (length flow.old ≡ length arcs.now)
        × ((a : ℕ) → a < length arcs.now → low N a ≤ up N a) }
    ensures { InBounds (net_from balances.now arcs.now) flow.new }
{
    let mut excess = [0u32; 256];
    if set_excess(balances, &mut excess) != 0 {
        flow_clamp::write_within(arcs, &[0u32; 2048], flow);
        return;
    }
    let mut simplex = Simplex::new(arcs.len());
    simplex.set_arcs(arcs, &mut excess);
    simplex.initial_tree(&excess, balances.len() as u8);
    simplex.improve();
    flow_clamp::write_within(arcs, &simplex.capacity, flow);
}
