// The search for a flow. It starts at a list within the bounds and sends from nodes with an excess to nodes with a deficit, until
// there is no excess, or none of it can be sent: the nodes reached then certify that there is no flow.
#![tactic(auto)]

ghost use Rattle.std.specs.Prelude.{◌≡◌, [], ℕ, ◌≤◌, ◌<◌, length, get_or, pos, ◌<ℤ◌};
ghost use Rattle.laws.specs.Range.{Bounded};
ghost use Rattle.laws.specs.Sum.{sum};
ghost use Rattle.net_model.specs.Network.{nodes, balance};
ghost use Rattle.net_model.specs.Struct.{net_from};
ghost use Rattle.net_theory.specs.Bounds.{InBounds};
ghost use Rattle.net_theory.specs.Ready.{Ready};
ghost use Rattle.flow_test.specs.FlowTest.{Testable};
ghost use Rattle.flow_feasible.specs.Sending.{Capped, SendsTo, Sends, FirstExcess};
ghost use Rattle.flow_feasible.specs.Answer.{AllFree, Feasible};

use net_model::Arc;

// A positive number, or a million where it is greater.
fn capped(x: i64) -> u32
    requires { pos 0 <ℤ x }
    ensures { Capped x result }
{
    if 1000000 < x {
        return 1000000;
    }
    x as u32
}

// As much as the capacities allow, at most `most`, from s to t, if t has a deficit (its excess x is below 0) and is reached.
fn send_to(
    arcs: &[Arc],
    free: &[bool],
    flow: &mut [u32],
    s: usize,
    t: usize,
    x: i64,
    most: u32,
) -> bool
    requires { Ready (net_from [] arcs.now) flow.old free.now × (s < 64) × (t < 64) × (0 < most) × Bounded 3000000000 x }
    ensures { SendsTo (net_from [] arcs.now) flow.old flow.new free.now s t most x result }
{
    if x >= 0 {
        return false;
    }
    let mut codes = [0usize; 64];
    match flow_path::find_walk(arcs, free, flow, s, t, 0, &mut codes) {
        Some(len) => {
            let cap = most.min(capped(-x));
            let d = flow_push::bottleneck(arcs, flow, &codes[..len], cap);
            flow_push::push(flow, &codes[..len], d);
            true
        }
        None => false,
    }
}

// Some of the excess of s, sent to the first node that has a deficit and is reached.
fn send(arcs: &[Arc], free: &[bool], flow: &mut [u32], excess: &[i64], s: usize) -> bool
    requires { Ready (net_from [] arcs.now) flow.old free.now × (s < length excess.now) × (length excess.now ≤ 64) × (pos 0 <ℤ get_or excess.now s (pos 0))
        × ((v : ℕ) → Bounded 3000000000 (get_or excess.now v (pos 0))) }
    ensures { Sends (net_from [] arcs.now) flow.old flow.new free.now excess.now s result }
{
    let most = capped(excess[s]);
    for (t, x) in excess.iter().enumerate() {
        if send_to(arcs, free, flow, s, t, *x, most) {
            return true;
        }
    }
    false
}

// The first node whose excess is above 0.
fn first_excess(excess: &[i64]) -> Option<usize>
    ensures { FirstExcess excess.now result }
{
    for (v, x) in excess.iter().enumerate() {
        if 0 < *x {
            return Some(v);
        }
    }
    None
}

// What the balances sum to.
fn total(balances: &[i32]) -> i64
    requires { (length balances.now ≤ 64) × ((v : ℕ) → Bounded 1000000000 (get_or balances.now v (pos 0))) }
    ensures { result ≡ sum (length balances.now) (λ v. get_or balances.now v (pos 0)) }
{
    let mut sum: i64 = 0;
    for balance in balances {
        sum += i64::from(*balance);
    }
    sum
}

// A flow, where the balances sum to 0; false if there is none. It starts from `flow`; `excess` is room to work in.
fn from_bounds(
    arcs: &[Arc],
    free: &[bool],
    balances: &[i32],
    flow: &mut [u32],
    excess: &mut [i64],
) -> bool
    requires { let N = net_from balances.now arcs.now in
        Testable N flow.old × InBounds N flow.old × AllFree N free.now × (length excess.old ≡ nodes N)
        × (sum (nodes N) (balance N) ≡ pos 0) }
    ensures { Feasible (net_from balances.now arcs.now) flow.new result }
{
    loop {
        flow_test::excess_of(arcs, balances, flow, excess);
        match first_excess(excess) {
            Some(s) => {
                if !send(arcs, free, flow, excess, s) {
                    return false;
                }
            }
            None => return true,
        }
    }
}

// A flow; false if there is none. It starts from `flow`, which is within the bounds: a good guess saves the work.
pub fn feasible(arcs: &[Arc], balances: &[i32], flow: &mut [u32]) -> bool
    requires { let N = net_from balances.now arcs.now in
        Testable N flow.old × InBounds N flow.old }
    ensures { Feasible (net_from balances.now arcs.now) flow.new result }
{
    if total(balances) != 0 {
        return false;
    }
    let free = [true; 512];
    let mut excess = [0i64; 64];
    let m = arcs.len();
    let n = balances.len();
    from_bounds(arcs, &free[..m], balances, flow, &mut excess[..n])
}
