// Numbers brought within the bounds of the arcs.
#![tactic(auto)]

ghost use Rattle.std.specs.Prelude.{◌≡◌, ◌≤◌, [], length};
ghost use Rattle.net_model.specs.Struct.{net_from};
ghost use Rattle.flow_clamp.specs.Clamped.{WritesWithin};

use net_model::Arc;

// For each arc a, number 2a + 1 of `capacity` above the lower bound, and no more than the upper bound. `capacity` is that of the codes of
// a simplex: two for each arc, and more.
pub fn write_within(arcs: &[Arc], capacity: &[u32; 2048], flow: &mut [u32])
    requires { (length arcs.now ≤ 512) × (length flow.old ≡ length arcs.now) }
    ensures { WritesWithin (net_from [] arcs.now) capacity.now flow.new }
{
    for (a, arc) in arcs.iter().enumerate() {
        let above = capacity[2 * a + 1];
        flow[a] = arc.low.saturating_add(above).min(arc.up);
    }
}
