// Which of 64 nodes lead to which: each to itself, and by any number of steps, which are added one at a time.
// There is a row of 64 bits for each node, and row 64 with the nodes that another node leads to. A step from a node that is not in row 64
// changes the row of that node and row 64 only, and most steps are such.
#![tactic(auto)]

ghost use Rattle.std.specs.Prelude.{◌≡◌, ℕ, ◌<◌, eqb, length};
ghost use Rattle.flow_preorder.specs.NodeSet.{has};
ghost use Rattle.flow_preorder.specs.Preorder.{Preorder, Alone, JoinedSet, JoinedRows, Extended};

// Whether v is in s.
pub fn has(s: u64, v: usize) -> bool
    requires { v < 64 }
    ensures { result ≡ has s v }
{
    (s >> v) & 1 == 1
}

// The set of v alone.
#[tactic(auto, using(crate::proofs::NodeSet::only_has))]
fn only(v: usize) -> u64
    requires { v < 64 }
    ensures { (w : ℕ) → has result w ≡ eqb w v }
{
    1 << v
}

// s, with all of t if p is in s.
#[tactic(auto, using(crate::proofs::NodeSet::joined_yes, crate::proofs::NodeSet::joined_no))]
fn joined(s: u64, t: u64, p: usize) -> u64
    requires { p < 64 }
    ensures { JoinedSet s t p result }
{
    if has(s, p) {
        return s | t;
    }
    s
}

// Each node leads to itself alone.
pub fn alone(rows: &mut [u64])
    requires { length rows.old ≡ 65 }
    ensures { Alone rows.new }
{
    for (v, row) in rows.iter_mut().enumerate() {
        *row = if v < 64 { only(v) } else { 0 };
    }
}

// All of t, in each row that has p.
fn join_rows(rows: &mut [u64], t: u64, p: usize)
    requires { (length rows.old ≡ 65) × (p < 64) }
    ensures { JoinedRows rows.old rows.new t p 65 }
{
    for row in rows.iter_mut() {
        *row = joined(*row, t, p);
    }
}

// The step from p to q, if `on`: whatever leads to p now leads to all that q leads to.
#[tactic(auto, using(crate::proofs::Preorder::same_rows))]
pub fn add(rows: &mut [u64], on: bool, p: usize, q: usize)
    requires { Preorder rows.old × (p < 64) × (q < 64) }
    ensures { Extended rows.old rows.new on p q }
{
    if !on {
        return;
    }
    let from = rows[p];
    if has(from, q) {
        return;
    }
    let all = rows[q];
    let met = rows[64];
    if has(met, p) {
        join_rows(rows, all, p);
        return;
    }
    rows[p] = from | all;
    rows[64] = met | all;
}
