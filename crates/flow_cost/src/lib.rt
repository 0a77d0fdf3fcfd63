// What a flow costs, and the tight arcs: those of reduced cost 0 under labels of the nodes.
#![tactic(auto)]

ghost use Rattle.std.specs.Prelude.{◌≡◌, [], ◌≤◌, ◌<◌, length, get_or, pos, ◌*ℤ◌, ◌+ℤ◌, ◌-ℤ◌};
ghost use Rattle.laws.specs.Range.{Bounded};
ghost use Rattle.net_model.specs.Network.{cost_of};
ghost use Rattle.net_model.specs.Struct.{net_from};
ghost use Rattle.net_theory.specs.Limits.{SmallEnds, SmallCosts};
ghost use Rattle.flow_cost.specs.Costs.{Summable, SmallLabels, MarksTight};

use net_model::Arc;

// What an arc that carries so many units adds to the cost.
fn cost_on(arc: &Arc, units: u32) -> i64
    requires { Bounded 1000000 arc.now.cost × (units ≤ 1000000) }
    ensures { result ≡ arc.now.cost *ℤ pos units }
{
    i64::from(arc.cost) * i64::from(units)
}

// The cost of a flow.
pub fn cost_of(arcs: &[Arc], flow: &[u32]) -> i64
    requires { Summable (net_from [] arcs.now) flow.now }
    ensures { result ≡ cost_of (net_from [] arcs.now) flow.now }
{
    let mut sum: i64 = 0;
    for (a, arc) in arcs.iter().enumerate() {
        sum += cost_on(arc, flow[a]);
    }
    sum
}

// The reduced cost of an arc.
fn reduced(arc: &Arc, labels: &[i64]) -> i64
    requires { let a = arc.now in
        Bounded 1000000 a.cost × (a.tail < 64) × (a.head < 64) × SmallLabels labels.now }
    ensures { let a = arc.now in let d = labels.now in
        result ≡ (a.cost +ℤ get_or d a.tail (pos 0)) -ℤ get_or d a.head (pos 0) }
{
    i64::from(arc.cost) + labels[usize::from(arc.tail)] - labels[usize::from(arc.head)]
}

// Marks the arcs of reduced cost 0, and no others. The labels are those of a search: a feasible potential, which need not be the prices.
pub fn mark_tight(arcs: &[Arc], labels: &[i64], marks: &mut [bool])
    requires { let N = net_from [] arcs.now in
        SmallEnds N × SmallCosts N × SmallLabels labels.now × (length marks.old ≡ length arcs.now) }
    ensures { let N = net_from [] arcs.now in
        MarksTight N (λ v. get_or labels.now v (pos 0)) marks.new (length arcs.now) }
{
    for (a, arc) in arcs.iter().enumerate() {
        marks[a] = reduced(arc, labels) == 0;
    }
}
