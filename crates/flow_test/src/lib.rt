// The excess of each node, and the test whether a list is a flow.
#![tactic(auto)]

ghost use Rattle.std.specs.Prelude.{◌≡◌, [], ℕ, ◌<◌, length, get_or, set, pos, ◌+ℤ◌};
ghost use Rattle.std.specs.Int.{w64};
ghost use Rattle.std.proofs.Common.{SFits};
ghost use Rattle.net_model.specs.Network.{nodes, IsFlow};
ghost use Rattle.net_model.specs.Struct.{net_from};
ghost use Rattle.net_theory.specs.Bounds.{InBounds};
ghost use Rattle.flow_test.specs.Excess.{SmallNumbers, Excesses};
ghost use Rattle.flow_test.specs.FlowTest.{Testable, Decides, IsBalanced};

use net_model::Arc;

// x more at node v.
fn add_at(excess: &mut [i64], v: usize, x: i64)
    requires { (v < length excess.old) × SFits w64 (get_or excess.old v (pos 0) +ℤ x) }
    ensures { excess.new ≡ set excess.old v (get_or excess.old v (pos 0) +ℤ x) }
{
    excess[v] += x;
}

// The balances, in 64 bits.
fn copy_balances(balances: &[i32], excess: &mut [i64])
    requires { length excess.old ≡ length balances.now }
    ensures { excess.new ≡ balances.now }
{
    for (v, balance) in balances.iter().enumerate() {
        excess[v] = i64::from(*balance);
    }
}

// The excess of each node: its balance, less what the flow sends out of it beyond what comes in.
pub fn excess_of(arcs: &[Arc], balances: &[i32], flow: &[u32], excess: &mut [i64])
    requires { let N = net_from balances.now arcs.now in
        SmallNumbers N flow.now × (length excess.old ≡ nodes N) }
    ensures { let N = net_from balances.now arcs.now in
        Excesses N flow.now excess.new }
{
    copy_balances(balances, excess);
    for (a, arc) in arcs.iter().enumerate() {
        let sent = i64::from(flow[a]);
        add_at(excess, usize::from(arc.tail), -sent);
        add_at(excess, usize::from(arc.head), sent);
    }
}

// Whether each number is within the bounds of its arc.
fn within_bounds(arcs: &[Arc], flow: &[u32]) -> bool
    requires { length flow.now ≡ length arcs.now }
    ensures { Decides (InBounds (net_from [] arcs.now) flow.now) result }
{
    arcs.iter()
        .zip(flow)
        .all(|(arc, units)| arc.low <= *units && *units <= arc.up)
}

// Whether every number is 0.
fn all_zero(excess: &[i64]) -> bool
    ensures { Decides ((v : ℕ) → v < length excess.now → get_or excess.now v (pos 0) ≡ pos 0) result }
{
    excess.iter().all(|x| *x == 0)
}

// Whether the flow out less the flow in is the balance at every node.
fn is_balanced(arcs: &[Arc], balances: &[i32], flow: &[u32]) -> bool
    requires { SmallNumbers (net_from balances.now arcs.now) flow.now }
    ensures { Decides (IsBalanced (net_from balances.now arcs.now) flow.now) result }
{
    let mut room = [0i64; 64];
    let excess = &mut room[..balances.len()];
    excess_of(arcs, balances, flow, excess);
    all_zero(excess)
}

// Whether the numbers are a flow.
pub fn is_flow(arcs: &[Arc], balances: &[i32], flow: &[u32]) -> bool
    requires { Testable (net_from balances.now arcs.now) flow.now }
    ensures { Decides (IsFlow (net_from balances.now arcs.now) flow.now) result }
{
    within_bounds(arcs, flow) && is_balanced(arcs, balances, flow)
}
