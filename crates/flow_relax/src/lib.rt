// Labels of the nodes, corrected in rounds over the residual arcs of a flow (Bellman and Ford).
#![tactic(auto)]

ghost use Rattle.std.specs.Prelude.{◌≡◌, ◌&&◌, [], suc, ◌+◌, ◌≤◌, ◌<◌, length, get_or, pos, ◌+ℤ◌, MatchOption, ⊤};
ghost use Rattle.std.specs.Option.{unwrap_or};
ghost use Rattle.std.specs.Int.Signed.{lt_z};
ghost use Rattle.std.specs.Int.{w64};
ghost use Rattle.std.proofs.Common.{SFits};
ghost use Rattle.net_model.specs.Residual.{codes};
ghost use Rattle.net_model.specs.Struct.{net_from};
ghost use Rattle.flow_relax.specs.Labels.{Relaxable, state, label, set_if, relaxed, relaxed_all, Sized};

use net_model::Arc;

// The residual arc `code` from u to v, if it is on: a better label for v, or nothing. The node whose label fell last. Here and in the predecessors a
// number means none (64, 65535): with an Option for each a round took a tenth longer.
fn relax(
    labels: &mut [i64],
    preds: &mut [u16],
    on: bool,
    u: usize,
    v: usize,
    c: i64,
    code: u16,
    last: usize,
) -> usize
    requires { (u < length labels.old) × (v < length labels.old) × (v < length preds.old) × SFits w64 (get_or labels.old u (pos 0) +ℤ c) }
    ensures { let s = state labels.old preds.old last in let x = label s u +ℤ c in
        state labels.new preds.new result ≡ set_if (on && lt_z x (label s v)) v x code s }
{
    if !on {
        return last;
    }
    let a = labels[u];
    let b = labels[v];
    let x = a + c;
    if x < b {
        labels[v] = x;
        preds[v] = code;
        return v;
    }
    last
}

// Both residual arcs of arc a, where `need` more can go. The labels are those of 64 rounds at most: 64 × 1,024 codes of cost at most 1,000,000.
fn relax_arc(
    arcs: &[Arc],
    flow: &[u32],
    need: u32,
    labels: &mut [i64],
    preds: &mut [u16],
    a: usize,
    last: usize,
) -> usize
    requires { let N = net_from [] arcs.now in
        Relaxable N flow.now × Sized 65536000000 labels.old preds.old × (a < length arcs.now) × (need ≤ 1000000) }
    ensures { let N = net_from [] arcs.now in let f = flow.now in
        let s = state labels.old preds.old last in
        state labels.new preds.new result ≡ relaxed N f need (suc (a + a)) (relaxed N f need (a + a) s) }
{
    let arc = &arcs[a];
    let t = usize::from(arc.tail);
    let h = usize::from(arc.head);
    let c = i64::from(arc.cost);
    let f = flow[a];
    let forward = f + need <= arc.up;
    let next = relax(labels, preds, forward, t, h, c, (a + a) as u16, last);
    let backward = arc.low + need <= f;
    relax(labels, preds, backward, h, t, -c, (a + a + 1) as u16, next)
}

// One round over the arcs, where `need` more can go. The node whose label fell last, if one did. The labels before it are those of 63 rounds at
// most: 63 × 1,024 codes of cost at most 1,000,000.
pub fn round(
    arcs: &[Arc],
    flow: &[u32],
    need: u32,
    labels: &mut [i64],
    preds: &mut [u16],
) -> Option<usize>
    requires { let N = net_from [] arcs.now in
        Relaxable N flow.now × Sized 64512000000 labels.old preds.old × (need ≤ 1000000) }
    ensures round { let N = net_from [] arcs.now in
        let s = state labels.old preds.old 64 in
        state labels.new preds.new (unwrap_or result 64) ≡ relaxed_all N flow.now need (codes N) s }
    ensures node { MatchOption result ⊤ (λ v. v < 64) }
{
    let mut last = 64;
    for a in 0..arcs.len() {
        last = relax_arc(arcs, flow, need, labels, preds, a, last);
    }
    if last < 64 { Some(last) } else { None }
}
