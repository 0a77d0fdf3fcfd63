// The price search: labels corrected in at most 64 rounds over the arcs, until they are the prices. It is run on least-cost flows alone, where
// every label is at every moment the cost of a residual walk: within 63,000,000 either way, and each sum within 64,000,000. So 32 bits hold all of
// its numbers (request 4).
#![tactic(auto)]

ghost use Rattle.std.specs.Prelude.{◌≡◌, cond, ◌&&◌, [], ℕ, suc, ◌+◌, ◌<◌, length, pos, ◌+ℤ◌, ◌≤ℤ◌};
ghost use Rattle.std.specs.Option.{unwrap_or};
ghost use Rattle.std.specs.Int.Signed.{lt_z};
ghost use Rattle.std.specs.Int.{w32};
ghost use Rattle.std.proofs.Common.{SFits};
ghost use Rattle.net_model.specs.Residual.{codes};
ghost use Rattle.net_model.specs.Struct.{net_from};
ghost use Rattle.flow_relax.specs.Labels.{Relaxable, state, label, set_if, relaxed, relaxed_all};
ghost use Rattle.flow_relax.specs.Potentials.{HasPotential};
ghost use Rattle.flow_prices.specs.Prices.{WalkLabels, PriceLabels};

use net_model::Arc;

// What a residual arc offers: x where it is on, and else 0, the cost of the walk without arcs, which lowers no label. It compiles to a conditional
// move: whether arcs are on follows no pattern, and a branch on it would be mispredicted.
fn offer_if(on: bool, x: i32) -> i32
    ensures { result ≡ cond on x (pos 0) }
{
    if on { x } else { 0 }
}

// The residual arc from u to v, if it is on: a better label for v, or nothing. The node whose label fell last (64: none, as an Option is slower here).
// No predecessors are kept: what is promised holds whatever the code.
fn relax(labels: &mut [i32], on: bool, u: u8, v: u8, c: i32, last: u32) -> u32
    requires { let s = state labels.old [] last in (u < length labels.old) × (v < length labels.old) × SFits w32 (label s u +ℤ c) × (label s v ≤ℤ pos 0) }
    ensures { let s = state labels.old [] last in let x = label s u +ℤ c in
        ((code : ℕ) → state labels.new [] result ≡ set_if (on && lt_z x (label s v)) v x code s) }
{
    let a = labels[usize::from(u)];
    let b = labels[usize::from(v)];
    let x = offer_if(on, a + c);
    if x < b {
        labels[usize::from(v)] = x;
        return u32::from(v);
    }
    last
}

// Both residual arcs of arc a.
fn relax_arc(arcs: &[Arc], flow: &[u32], labels: &mut [i32], a: usize, last: u32) -> u32
    requires { let N = net_from [] arcs.now in
        Relaxable N flow.now × HasPotential N flow.now 1 × WalkLabels N flow.now labels.old × (a < length arcs.now) }
    ensures { let N = net_from [] arcs.now in let f = flow.now in
        let s = state labels.old [] last in
        state labels.new [] result ≡ relaxed N f 1 (suc (a + a)) (relaxed N f 1 (a + a) s) }
{
    let arc = &arcs[a];
    let f = flow[a];
    let forward = f < arc.up;
    let next = relax(labels, forward, arc.tail, arc.head, arc.cost, last);
    let backward = arc.low < f;
    relax(labels, backward, arc.head, arc.tail, -arc.cost, next)
}

// One round over the arcs. The node whose label fell last, if one did.
fn round(arcs: &[Arc], flow: &[u32], labels: &mut [i32]) -> Option<u32>
    requires { let N = net_from [] arcs.now in
        Relaxable N flow.now × HasPotential N flow.now 1 × WalkLabels N flow.now labels.old }
    ensures { let N = net_from [] arcs.now in
        let s = state labels.old [] 64 in
        state labels.new [] (unwrap_or result 64) ≡ relaxed_all N flow.now 1 (codes N) s }
{
    let mut last = 64;
    for a in 0..arcs.len() {
        last = relax_arc(arcs, flow, labels, a, last);
    }
    if last < 64 { Some(last) } else { None }
}

// The price of each node, for a flow without a negative cycle: the least cost of a residual walk that ends there.
pub fn prices(arcs: &[Arc], flow: &[u32]) -> [i32; 64]
    requires { let N = net_from [] arcs.now in Relaxable N flow.now × HasPotential N flow.now 1 }
    ensures { PriceLabels (net_from [] arcs.now) flow.now result }
{
    let mut least = [0i32; 64];
    for _k in 0..64u32 {
        if round(arcs, flow, &mut least).is_none() {
            return least;
        }
    }
    least
}
