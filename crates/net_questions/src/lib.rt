// Questions 1 to 6, put to two lists of bytes.
#![tactic(auto)]

ghost use Rattle.std.specs.Prelude.{◌≡◌, Bool, ◌+◌, ◌*◌, ◌≤◌, length, get_or, pos, MatchResult};
ghost use Rattle.laws.specs.Tests.{all};
ghost use Rattle.bytes_read.specs.Words.{ints};
ghost use Rattle.net_model.specs.Input.{rows};
ghost use Rattle.net_model.specs.declared.Row.{Row};
ghost use Rattle.net_questions.specs.Questions.{Ends, Bounds, Cost, inside, passes, fair_balance, fair_nodes, fair_arcs, network_refusal, number_of};
ghost use Rattle.net_questions.specs.Arcs.{no_arc};

use net_model::Row;

// The question that a network fails, by its number.
#[derive(Clone, Copy, Debug, PartialEq, Eq)]
pub enum NetworkRefusal {
    NodeCount = 1,
    ArcCount,
    BadEnd,
    BadBounds,
    BadCost,
    BadBalance,
}

impl NetworkRefusal {
    // The number of the question.
    pub fn number(self) -> u32
        ensures { result ≡ number_of self }
    {
        self as u32
    }
}

// The five numbers of arc a.
pub fn row_at(arcs: &[u8], a: usize) -> Row
    requires { 20 * a + 20 ≤ length arcs.now }
    ensures { result ≡ get_or (rows (ints arcs.now)) a no_arc }
{
    let k = 5 * a;
    Row {
        tail: bytes_read::read_i32(arcs, k),
        head: bytes_read::read_i32(arcs, k + 1),
        low: bytes_read::read_i32(arcs, k + 2),
        up: bytes_read::read_i32(arcs, k + 3),
        cost: bytes_read::read_i32(arcs, k + 4),
    }
}

// Question 1.
fn fair_nodes(bytes: usize) -> bool
    ensures { result ≡ fair_nodes bytes }
{
    bytes % 4 == 0 && 1 <= bytes / 4 && bytes / 4 <= 64
}

// Question 2.
fn fair_arcs(bytes: usize) -> bool
    ensures { result ≡ fair_arcs bytes }
{
    bytes % 20 == 0 && bytes / 20 <= 512
}

// Question 3 of an arc; `last` is the last node.
fn fair_ends(row: Row, last: i32) -> bool
    ensures { result ≡ passes Ends last row }
{
    is_node(row.tail, last) && is_node(row.head, last)
}

fn is_node(end: i32, last: i32) -> bool
    ensures { result ≡ inside (pos 0) last end }
{
    (0..=last).contains(&end)
}

// Question 4 of an arc, which does not ask for the last node.
fn fair_bounds(row: Row) -> bool
    ensures { result ≡ passes Bounds (pos 0) row }
{
    (0..=row.up).contains(&row.low) && row.up <= 1000000
}

// Question 5 of an arc, which does not either.
fn fair_cost(row: Row) -> bool
    ensures { result ≡ passes Cost (pos 0) row }
{
    (-1000000..=1000000).contains(&row.cost)
}

// Question 6 of a balance.
fn fair_balance(balance: i32) -> bool
    ensures { result ≡ fair_balance balance }
{
    (-1000000000..=1000000000).contains(&balance)
}

// Whether every arc passes a test.
fn all_rows<F: Fn(Row) -> bool>(arcs: &[u8], passes: F) -> bool
    requires { F.IsAlwaysCallable passes }
    ensures { (p : Row → Bool) → ((row : Row) (b : Bool) → F.post passes row b → b ≡ p row) → result ≡ all p (rows (ints arcs.now)) }
{
    (0..arcs.len() / 20).map(|a| row_at(arcs, a)).all(passes)
}

// Question 6.
fn all_balanced(balances: &[u8]) -> bool
    ensures { result ≡ all fair_balance (ints balances.now) }
{
    (0..balances.len() / 4)
        .map(|v| bytes_read::read_i32(balances, v))
        .all(fair_balance)
}

// Questions 1 to 6, in this order.
pub fn judge(balances: &[u8], arcs: &[u8]) -> Result<(), NetworkRefusal>
    ensures { MatchResult result (λ _. network_refusal balances.now arcs.now ≡ 0) (λ refusal. network_refusal balances.now arcs.now ≡ number_of refusal) }
{
    if !fair_nodes(balances.len()) {
        return Err(NetworkRefusal::NodeCount);
    }
    if !fair_arcs(arcs.len()) {
        return Err(NetworkRefusal::ArcCount);
    }
    let last = (balances.len() / 4 - 1) as i32;
    if !all_rows(arcs, |row| fair_ends(row, last)) {
        return Err(NetworkRefusal::BadEnd);
    }
    if !all_rows(arcs, fair_bounds) {
        return Err(NetworkRefusal::BadBounds);
    }
    if !all_rows(arcs, fair_cost) {
        return Err(NetworkRefusal::BadCost);
    }
    if !all_balanced(balances) {
        return Err(NetworkRefusal::BadBalance);
    }
    Ok(())
}
