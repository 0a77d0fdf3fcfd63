// The least-cost flows in order: the least flow from an arc on, the next flow, and the count.
// `free` marks arcs of reduced cost 0: no least-cost flow differs from another on the rest.
#![tactic(auto)]

ghost use Rattle.std.specs.Prelude.{◌≡◌, false, [], ◌≤◌, length, IfSome};
ghost use Rattle.std.proofs.Math.Option.{some};
ghost use Rattle.net_model.specs.FullList.{first_flow};
ghost use Rattle.net_model.specs.Struct.{net_from};
ghost use Rattle.net_theory.specs.Bounds.{InBounds};
ghost use Rattle.net_theory.specs.Ready.{Ready};
ghost use Rattle.flow_arc.specs.FreeMarks.{FreeMarks, ForAll};
ghost use Rattle.flow_order.specs.Minimising.{Minimised};
ghost use Rattle.flow_order.specs.Following.{Next, CountsFlows};

use net_model::Arc;

// Every arc from k on as low as it can be, in order. Only the arcs that can be lowered are gone to.
pub fn minimise(arcs: &[Arc], free: &[bool], flow: &mut [u32], k: usize)
    requires { Ready (net_from [] arcs.now) flow.old free.now × (k ≤ length arcs.now) }
    ensures { let N = net_from [] arcs.now in
        InBounds N flow.new
        × ForAll N (λ M π. FreeMarks M π free.now flow.old → Minimised M flow.old flow.new k) }
{
    let mut from = k;
    while let Some(a) = flow_closure::first_lowerable(arcs, free, flow, from) {
        flow_arc::lower(arcs, free, flow, a);
        from = a + 1;
    }
}

// The least-cost flow after this one: the last arc that can be raised is, by 1, and the arcs after it are as low as they can be. False, and
// the same flow, if there is none.
pub fn next(arcs: &[Arc], free: &[bool], flow: &mut [u32]) -> bool
    requires { Ready (net_from [] arcs.now) flow.old free.now }
    ensures { let N = net_from [] arcs.now in
        InBounds N flow.new × (result ≡ false → flow.new ≡ flow.old)
        × ForAll N (λ M π. FreeMarks M π free.now flow.old → Next M flow.old flow.new result) }
{
    if let Some(a) = flow_closure::last_raisable(arcs, free, flow) {
        flow_arc::raise(arcs, free, flow, a);
        minimise(arcs, free, flow, a + 1);
        return true;
    }
    false
}

// How many least-cost flows there are, given the first, if there are no more than the cap. The flow is then the last one met.
pub fn count(arcs: &[Arc], free: &[bool], flow: &mut [u32], cap: u16) -> Option<u16>
    requires { Ready (net_from [] arcs.now) flow.old free.now }
    ensures few { IfSome result (λ n. n ≤ cap) }
    ensures counts { ForAll (net_from [] arcs.now) (λ M π. FreeMarks M π free.now flow.old → first_flow M ≡ some flow.old
        → CountsFlows M cap result flow.new) }
{
    for n in 1..=cap {
        if !next(arcs, free, flow) {
            return Some(n);
        }
    }
    None
}
