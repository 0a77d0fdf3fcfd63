// What can go along a walk in the residual network, and pushing along it.
// A residual arc is a code: 2a is arc a forward, 2a + 1 is arc a backward.
#![tactic(auto)]

ghost use Rattle.std.specs.Prelude.{◌≡◌, [], ◌/◌, ◌≤◌, ◌<◌, length, get_or};
ghost use Rattle.laws.specs.Members.{Every};
ghost use Rattle.net_model.specs.Network.{low, up};
ghost use Rattle.net_model.specs.Residual.{codes as codes_of};
ghost use Rattle.net_model.specs.Struct.{net_from};
ghost use Rattle.net_theory.specs.ResidualCapacity.{residual_capacity};
ghost use Rattle.net_theory.specs.Bounds.{InBounds};
ghost use Rattle.net_theory.specs.Push.{push_one, push_all};
ghost use Rattle.flow_push.specs.Pushing.{bottleneck, Room, RoomAlong};

use net_model::Arc;

// What can still go along code c.
fn residual_capacity(arcs: &[Arc], flow: &[u32], c: usize) -> u32
    requires { let N = net_from [] arcs.now in
        (c / 2 < length arcs.now) × (c / 2 < length flow.now) × (low N (c / 2) ≤ get_or flow.now (c / 2) 0) × (get_or flow.now (c / 2) 0 ≤ up N (c / 2)) }
    ensures { result ≡ residual_capacity (net_from [] arcs.now) flow.now c }
{
    let arc = arcs[c / 2];
    let units = flow[c / 2];
    if c % 2 == 0 {
        arc.up - units
    } else {
        units - arc.low
    }
}

// The least capacity along the codes, at most cap.
pub fn bottleneck(arcs: &[Arc], flow: &[u32], codes: &[usize], cap: u32) -> u32
    requires { let N = net_from [] arcs.now in
        InBounds N flow.now × Every (λ c. c < codes_of N) codes.now }
    ensures { let N = net_from [] arcs.now in
        result ≡ bottleneck N flow.now cap codes.now }
{
    let mut least = cap;
    for c in codes {
        least = least.min(residual_capacity(arcs, flow, *c));
    }
    least
}

// d more along code c.
fn push_one(flow: &mut [u32], c: usize, d: u32)
    requires { Room d c flow.old }
    ensures { flow.new ≡ push_one d c flow.old }
{
    if c % 2 == 0 {
        flow[c / 2] += d;
    } else {
        flow[c / 2] -= d;
    }
}

// d more along the codes.
pub fn push(flow: &mut [u32], codes: &[usize], d: u32)
    requires { RoomAlong d codes.now flow.old }
    ensures { flow.new ≡ push_all d codes.now flow.old }
{
    for c in codes {
        push_one(flow, *c, d);
    }
}
