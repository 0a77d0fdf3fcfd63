// The search for a negative cycle in the residual network of a flow: rounds over the arcs until one changes no label, or predecessors come to a cycle.
#![tactic(auto)]

ghost use Rattle.std.specs.Prelude.{◌≡◌, [], ◌≤◌, ◌<◌, length};
ghost use Rattle.net_model.specs.Struct.{net_from};
ghost use Rattle.net_theory.specs.Limits.{SmallEnds};
ghost use Rattle.flow_relax.specs.Labels.{Relaxable};
ghost use Rattle.flow_negative_cycle.specs.Predecessors.{Returns, GoesBack, Collects};
ghost use Rattle.flow_negative_cycle.specs.Search.{FindsCycle};

use net_model::Arc;

// The node 64 predecessors back from v, which is on a cycle; or none, where a node without a predecessor is met.
fn go_back(arcs: &[Arc], preds: &[u16], v: usize) -> Option<usize>
    requires { SmallEnds (net_from [] arcs.now) × (length preds.now ≡ 64) × (v < 64) }
    ensures { GoesBack (net_from [] arcs.now) preds.now v result }
{
    let m = arcs.len() + arcs.len();
    let mut w = v;
    for _i in 0..64usize {
        let c = usize::from(preds[w]);
        if m <= c {
            return None;
        }
        w = net_model::source(arcs, c);
    }
    Some(w)
}

// The codes of the cycle through x, the last first. How many.
fn collect(arcs: &[Arc], preds: &[u16], x: usize, out: &mut [usize]) -> usize
    requires { let N = net_from [] arcs.now in
        SmallEnds N × (length preds.now ≡ 64) × (length out.old ≡ 64) × Returns N preds.now x }
    ensures { let N = net_from [] arcs.now in
        Collects N preds.now x out.old out.new result }
{
    let mut w = x;
    let mut len = 0;
    loop {
        let c = usize::from(preds[w]);
        out[len] = c;
        len += 1;
        w = net_model::source(arcs, c);
        if w == x {
            return len;
        }
    }
}

// A residual cycle of negative cost with capacity for `need` more on each arc (for 1, any such cycle): its codes, the last first, and how many;
// or none, and labels that show that there is none.
pub fn find_cycle(
    arcs: &[Arc],
    flow: &[u32],
    need: u32,
    labels: &mut [i64],
    out: &mut [usize],
) -> Option<usize>
    requires { let N = net_from [] arcs.now in
        Relaxable N flow.now × (0 < need) × (need ≤ 1000000) × (length labels.old ≡ 64) × (length out.old ≡ 64) }
    ensures { let N = net_from [] arcs.now in
        FindsCycle N flow.now need labels.new out.old out.new result }
{
    labels.fill(0);
    let mut preds = [65535u16; 64];
    // The rounds so far, which are fewer than 64. Only the proof reads it.
    let mut k: usize = 0;
    // A node on a cycle, or none after a round that changed no label.
    let node = 'rounds: loop {
        let Some(last) = flow_relax::round(arcs, flow, need, labels, &mut preds) else {
            break 'rounds None;
        };
        if let Some(node) = go_back(arcs, &preds, last) {
            break 'rounds Some(node);
        }
        k += 1;
    };
    let node = node?;
    Some(collect(arcs, &preds, node, out))
}
