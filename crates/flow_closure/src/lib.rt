// Which arcs can be raised or lowered, in one pass over the arcs from the last down.
// The pass keeps the transitive closure of the residual steps of the free arcs passed (crate flow_preorder): an arc can be raised or lowered if its
// step closes a cycle. The closure of all of them shows which arcs can be neither.
#![tactic(auto)]

ghost use Rattle.std.specs.Prelude.{◌≡◌, [], ◌||◌, ◌<◌, ◌≤◌, length};
ghost use Rattle.net_model.specs.Struct.{net_from};
ghost use Rattle.net_theory.specs.Ready.{Searchable};
ghost use Rattle.flow_preorder.specs.Preorder.{Preorder, Alone};
ghost use Rattle.flow_closure.specs.Closure.{StepsAdded, Closure};
ghost use Rattle.flow_closure.specs.Candidates.{closes, raises, lowers, LastRaisable, FirstLowerable, UnmarkFixed};

use net_model::Arc;

// The steps of an arc that carries `units`.
fn add_arc(rows: &mut [u64], arc: Arc, units: u32)
    requires { Preorder rows.old × (arc.tail < 64) × (arc.head < 64) }
    ensures { StepsAdded rows.old rows.new arc units }
{
    let p = usize::from(arc.tail);
    let q = usize::from(arc.head);
    flow_preorder::add(rows, units < arc.up, p, q);
    flow_preorder::add(rows, arc.low < units, q, p);
}

// Whether the step from p to q, if `on`, closes a cycle.
fn closes_cycle(rows: &[u64], on: bool, p: u8, q: u8) -> bool
    requires { (length rows.now ≡ 65) × (p < 64) × (q < 64) }
    ensures { result ≡ closes rows.now on p q }
{
    on && flow_preorder::has(rows[usize::from(q)], usize::from(p))
}

// Whether the step that raises the arc closes a cycle.
fn closes_raised(rows: &[u64], arc: Arc, units: u32) -> bool
    requires { (length rows.now ≡ 65) × (arc.tail < 64) × (arc.head < 64) }
    ensures { result ≡ raises rows.now arc units }
{
    closes_cycle(rows, units < arc.up, arc.tail, arc.head)
}

// Whether the step that lowers the arc closes a cycle.
fn closes_lowered(rows: &[u64], arc: Arc, units: u32) -> bool
    requires { (length rows.now ≡ 65) × (arc.tail < 64) × (arc.head < 64) }
    ensures { result ≡ lowers rows.now arc units }
{
    closes_cycle(rows, arc.low < units, arc.head, arc.tail)
}

// The last arc that can be raised by way of the free arcs after it.
pub fn last_raisable(arcs: &[Arc], free: &[bool], flow: &[u32]) -> Option<usize>
    requires { Searchable (net_from [] arcs.now) flow.now free.now }
    ensures { LastRaisable (net_from [] arcs.now) flow.now free.now result }
{
    let mut rows = [0u64; 65];
    flow_preorder::alone(&mut rows);
    for a in (0..arcs.len()).rev() {
        if free[a] {
            let arc = arcs[a];
            if closes_raised(&rows, arc, flow[a]) {
                return Some(a);
            }
            add_arc(&mut rows, arc, flow[a]);
        }
    }
    None
}

// The first arc from `from` on that can be lowered by way of the free arcs after it.
pub fn first_lowerable(arcs: &[Arc], free: &[bool], flow: &[u32], from: usize) -> Option<usize>
    requires { Searchable (net_from [] arcs.now) flow.now free.now × (from ≤ length arcs.now) }
    ensures { FirstLowerable (net_from [] arcs.now) flow.now free.now from result }
{
    let mut rows = [0u64; 65];
    flow_preorder::alone(&mut rows);
    let mut first = None;
    for a in (from..arcs.len()).rev() {
        if free[a] {
            let arc = arcs[a];
            if closes_lowered(&rows, arc, flow[a]) {
                first = Some(a);
            }
            add_arc(&mut rows, arc, flow[a]);
        }
    }
    first
}

// The steps of all free arcs.
fn add_arcs(rows: &mut [u64], arcs: &[Arc], free: &[bool], flow: &[u32])
    requires { Searchable (net_from [] arcs.now) flow.now free.now × Alone rows.old }
    ensures { Closure (net_from [] arcs.now) flow.now free.now 0 rows.new }
{
    for a in (0..arcs.len()).rev() {
        if free[a] {
            add_arc(rows, arcs[a], flow[a]);
        }
    }
}

// Whether a step of the arc closes a cycle.
fn on_cycle(rows: &[u64], arc: Arc, units: u32) -> bool
    requires { (length rows.now ≡ 65) × (arc.tail < 64) × (arc.head < 64) }
    ensures { result ≡ (raises rows.now arc units || lowers rows.now arc units) }
{
    closes_raised(rows, arc, units) || closes_lowered(rows, arc, units)
}

// A free arc stays free if one of its steps closes a cycle with residual steps of free arcs. The two steps of one arc close one, so that an arc
// strictly between its bounds stays free even where no other flow changes it.
pub fn unmark_fixed(arcs: &[Arc], free: &mut [bool], flow: &[u32])
    requires { Searchable (net_from [] arcs.now) flow.now free.old }
    ensures { UnmarkFixed (net_from [] arcs.now) flow.now free.old free.new }
{
    let mut rows = [0u64; 65];
    flow_preorder::alone(&mut rows);
    add_arcs(&mut rows, arcs, free, flow);
    for (a, mark) in free.iter_mut().enumerate() {
        *mark = *mark && on_cycle(&rows, arcs[a], flow[a]);
    }
}
