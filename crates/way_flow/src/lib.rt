// The way of a flow, and the flow of a way.
#![tactic(auto)]

ghost use Rattle.std.specs.Prelude.{◌≡◌, ◌≤◌, length};
ghost use Rattle.way_theory.specs.Ways.{times};
ghost use Rattle.way_flow.specs.Arcs.{HasEnds, HasFlow, IsWayOf, IsFlowOf};

use net_model::Arc;

// The way of which `flow` is the flow, of a book of e entries: an arc to node h carries 1 from node t if entry (h + 1) / 2 has predecessor t / 2.
pub fn way_of(e: usize, arcs: &[Arc], flow: &[u32]) -> [u32; 28]
    requires { HasFlow e arcs.now flow.now }
    ensures { IsWayOf e arcs.now flow.now result }
{
    let mut way = [0; 28];
    let joins = arcs.len() - (2 * e + 1);
    for (k, arc) in arcs[..joins].iter().enumerate() {
        if flow[k] == 1 {
            way[usize::from((arc.head - 1) / 2)] = u32::from(arc.tail / 2);
        }
    }
    way
}

// How often i stands in the way.
pub fn times(way: &[u32], i: u32) -> u32
    requires { length way.now ≤ 28 }
    ensures { result ≡ times i way.now }
{
    way.iter().filter(|p| **p == i).count() as u32
}

// The flow of a list of e numbers: that of a way, if it is one, and else no flow.
pub fn flow_of(e: usize, players: u32, arcs: &[Arc], way: &[u32]) -> [u32; 512]
    requires { HasEnds e players arcs.now × (length way.now ≡ e) }
    ensures { IsFlowOf e players arcs.now way.now result }
{
    let mut flow = [0; 512];
    let joins = arcs.len() - (2 * e + 1);
    for (k, arc) in arcs[..joins].iter().enumerate() {
        let predecessor = way[usize::from((arc.head - 1) / 2)];
        flow[k] = u32::from(u32::from(arc.tail / 2) == predecessor);
    }
    let ends = joins + e;
    flow[joins..ends].fill(1);
    for j in 0..e {
        flow[ends + j] = 1u32.saturating_sub(times(way, j as u32 + 1));
    }
    flow[ends + e] = players.saturating_sub(times(way, 0));
    flow
}
