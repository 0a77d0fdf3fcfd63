// The first least-cost flow of a network, and the test of a given flow.
#![tactic(auto)]

ghost use Rattle.std.specs.Prelude.{◌≡◌, length};
ghost use Rattle.net_model.specs.Accepted.{AcceptedNet};
ghost use Rattle.net_model.specs.Struct.{net_from};
ghost use Rattle.flow_feasible.specs.Answer.{Feasible};
ghost use Rattle.flow_least.specs.Answers.{FirstFlow, LeastIf, ShowsLeast, MarkedIfLeast};

use net_model::Arc;

// A flow, and a least-cost one where the guess is right; false if there is none.
fn starting_flow(arcs: &[Arc], balances: &[i32], flow: &mut [u32]) -> bool
    requires { AcceptedNet (net_from balances.now arcs.now) × (length flow.old ≡ length arcs.now) }
    ensures { Feasible (net_from balances.now arcs.now) flow.new result }
{
    flow_simplex::guess(arcs, balances, flow);
    flow_feasible::feasible(arcs, balances, flow)
}

// The first flow, and its marks; false if there is none. Both are written into what is lent, for no heap is used. The whole list may be gone through
// after it, so the marks are narrowed, which one step (after `mark_if_least`) would not repay.
pub fn first_flow(arcs: &[Arc], balances: &[i32], flow: &mut [u32], free: &mut [bool]) -> bool
    requires { AcceptedNet (net_from balances.now arcs.now) × (length flow.old ≡ length arcs.now) × (length free.old ≡ length arcs.now) }
    ensures { FirstFlow (net_from balances.now arcs.now) flow.new free.old free.new result }
{
    if !starting_flow(arcs, balances, flow) {
        return false;
    }
    let mut labels = [0i64; 64];
    flow_cancel::cancel_negative_cycles(arcs, flow, &mut labels);
    flow_cost::mark_tight(arcs, &labels, free);
    flow_closure::unmark_fixed(arcs, free, flow);
    flow_order::minimise(arcs, free, flow, 0);
    true
}

// Question 8, of m numbers: where they are a least-cost flow, labels that show it.
fn least_labels(arcs: &[Arc], balances: &[i32], flow: &[u32]) -> Option<[i64; 64]>
    requires { AcceptedNet (net_from balances.now arcs.now) × (length flow.now ≡ length arcs.now) }
    ensures { ShowsLeast (net_from balances.now arcs.now) flow.now result }
{
    if !flow_test::is_flow(arcs, balances, flow) {
        return None;
    }
    let mut labels = [0i64; 64];
    let mut codes = [0usize; 64];
    match flow_negative_cycle::find_cycle(arcs, flow, 1, &mut labels, &mut codes) {
        Some(_) => None,
        None => Some(labels),
    }
}

// Question 8, of m numbers: whether they are a least-cost flow.
pub fn is_least(arcs: &[Arc], balances: &[i32], flow: &[u32]) -> bool
    requires { AcceptedNet (net_from balances.now arcs.now) × (length flow.now ≡ length arcs.now) }
    ensures { LeastIf (net_from balances.now arcs.now) flow.now result }
{
    least_labels(arcs, balances, flow).is_some()
}

// Question 8, of m numbers: whether they are a least-cost flow; if so, its marks.
pub fn mark_if_least(arcs: &[Arc], balances: &[i32], flow: &[u32], free: &mut [bool]) -> bool
    requires { AcceptedNet (net_from balances.now arcs.now) × (length flow.now ≡ length arcs.now) × (length free.old ≡ length arcs.now) }
    ensures { MarkedIfLeast (net_from balances.now arcs.now) flow.now free.old free.new result }
{
    match least_labels(arcs, balances, flow) {
        Some(labels) => {
            flow_cost::mark_tight(arcs, &labels, free);
            true
        }
        None => false,
    }
}
