// One arc of a least-cost flow lowered or raised while the arcs before it stay.
// `free` marks arcs of reduced cost 0: no least-cost flow differs from another on the rest.
#![tactic(auto)]

ghost use Rattle.std.specs.Prelude.{[], suc, ◌<◌, length, get_or};
ghost use Rattle.net_model.specs.Network.{low};
ghost use Rattle.net_model.specs.Struct.{net_from};
ghost use Rattle.net_theory.specs.Bounds.{InBounds};
ghost use Rattle.net_theory.specs.FreeArcs.{Raisable};
ghost use Rattle.net_theory.specs.Limits.{SmallBounds};
ghost use Rattle.net_theory.specs.Ready.{Ready};
ghost use Rattle.flow_arc.specs.FreeMarks.{FreeMarks, ForAll};
ghost use Rattle.flow_arc.specs.WalksAbove.{CapacityAbove, TakenOff};
ghost use Rattle.flow_arc.specs.Changes.{Lowered, RaisedByOne};

use net_model::Arc;

// As much as the capacities allow is taken off arc a and sent along the codes instead.
fn take_off(arcs: &[Arc], flow: &mut [u32], codes: &[usize], a: usize)
    requires { let N = net_from [] arcs.now in
        SmallBounds N × InBounds N flow.old × (a < length arcs.now) × (low N a < get_or flow.old a 0) × CapacityAbove N flow.old a codes.now }
    ensures { TakenOff (net_from [] arcs.now) flow.old flow.new a codes.now }
{
    let most = flow[a] - arcs[a].low;
    let d = flow_push::bottleneck(arcs, flow, codes, most);
    flow[a] -= d;
    flow_push::push(flow, codes, d);
}

// Arc a as low as it can be while the arcs before it stay.
pub fn lower(arcs: &[Arc], free: &[bool], flow: &mut [u32], a: usize)
    requires { Ready (net_from [] arcs.now) flow.old free.now × (a < length arcs.now) }
    ensures { let N = net_from [] arcs.now in
        InBounds N flow.new
        × ForAll N (λ M π. FreeMarks M π free.now flow.old → Lowered M flow.old flow.new a) }
{
    if !free[a] {
        return;
    }
    let arc = arcs[a];
    let from = usize::from(arc.tail);
    let to = usize::from(arc.head);
    let mut codes = [0usize; 64];
    while arc.low < flow[a] {
        match flow_path::find_walk(arcs, free, flow, from, to, a + 1, &mut codes) {
            Some(len) => take_off(arcs, flow, &codes[..len], a),
            None => return,
        }
    }
}

// Arc a, which can be raised, raised by 1 while the arcs before it stay.
pub fn raise(arcs: &[Arc], free: &[bool], flow: &mut [u32], a: usize)
    requires { let N = net_from [] arcs.now in
        Ready N flow.old free.now × (a < length arcs.now) × Raisable N flow.old free.now (suc a) a }
    ensures { let N = net_from [] arcs.now in
        InBounds N flow.new
        × ForAll N (λ M π. FreeMarks M π free.now flow.old → RaisedByOne M flow.old flow.new a) }
{
    let arc = arcs[a];
    let from = usize::from(arc.head);
    let to = usize::from(arc.tail);
    let mut codes = [0usize; 64];
    if let Some(len) = flow_path::find_walk(arcs, free, flow, from, to, a + 1, &mut codes) {
        flow[a] += 1;
        flow_push::push(flow, &codes[..len], 1);
    }
}
