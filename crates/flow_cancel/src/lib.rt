// Cancelling negative cycles (Klein), those with much capacity first (capacity scaling), until there is none.
#![tactic(auto)]

ghost use Rattle.std.specs.Prelude.{◌≡◌, [], ◌≤◌, ◌<◌, length};
ghost use Rattle.net_model.specs.Struct.{net_from};
ghost use Rattle.flow_relax.specs.Labels.{Relaxable};
ghost use Rattle.flow_cancel.specs.Cancelling.{Cancels, CancelsAll, CancelsNegativeCycles};

use net_model::Arc;

// As much as its capacity allows, sent along a negative cycle that has capacity for `need`; false, and the same flow, if there is none.
fn cancel(arcs: &[Arc], flow: &mut [u32], need: u32, labels: &mut [i64]) -> bool
    requires { let N = net_from [] arcs.now in
        Relaxable N flow.old × (0 < need) × (need ≤ 1000000) × (length labels.old ≡ 64) }
    ensures { let N = net_from [] arcs.now in
        Cancels N flow.old flow.new need labels.new result }
{
    let mut room = [0usize; 64];
    match flow_negative_cycle::find_cycle(arcs, flow, need, labels, &mut room) {
        Some(len) => {
            let codes = &room[..len];
            let d = flow_push::bottleneck(arcs, flow, codes, 1000000);
            flow_push::push(flow, codes, d);
            true
        }
        None => false,
    }
}

// Every negative cycle that has capacity for `need`, cancelled.
fn cancel_all(arcs: &[Arc], flow: &mut [u32], need: u32, labels: &mut [i64])
    requires { let N = net_from [] arcs.now in
        Relaxable N flow.old × (0 < need) × (need ≤ 1000000) × (length labels.old ≡ 64) }
    ensures { let N = net_from [] arcs.now in
        CancelsAll N flow.old flow.new need labels.new }
{
    'cycles: while cancel(arcs, flow, need, labels) {}
}

// Every negative cycle cancelled: those with capacity for 524,288 first, then for half as much, down to 1.
fn cancel_by_scaling(arcs: &[Arc], flow: &mut [u32], labels: &mut [i64])
    requires { let N = net_from [] arcs.now in
        Relaxable N flow.old × (length labels.old ≡ 64) }
    ensures { let N = net_from [] arcs.now in
        CancelsAll N flow.old flow.new 1 labels.new }
{
    let mut need: u32 = 524288;
    loop {
        cancel_all(arcs, flow, need, labels);
        if need == 1 {
            return;
        }
        need /= 2;
    }
}

// A flow without a negative cycle, from any flow; one search is enough where it has none.
pub fn cancel_negative_cycles(arcs: &[Arc], flow: &mut [u32], labels: &mut [i64])
    requires { let N = net_from [] arcs.now in
        Relaxable N flow.old × (length labels.old ≡ 64) }
    ensures { let N = net_from [] arcs.now in
        CancelsNegativeCycles N flow.old flow.new labels.new }
{
    if cancel(arcs, flow, 1, labels) {
        cancel_by_scaling(arcs, flow, labels);
    }
}
