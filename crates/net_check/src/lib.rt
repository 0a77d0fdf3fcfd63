// The checked network: the struct of a network that passes questions 1 to 6, or the first question that it fails.
#![tactic(auto)]

ghost use Rattle.std.specs.Prelude.{◌≡◌, ◌/◌, ◌<◌, true, pos, get_or, length};
ghost use Rattle.laws.specs.Tests.{all};
ghost use Rattle.bytes_read.specs.Words.{ints};
ghost use Rattle.net_model.specs.Input.{rows};
ghost use Rattle.net_questions.specs.Questions.{Ends, Bounds, passes, network_refusal};
ghost use Rattle.net_questions.specs.Arcs.{no_arc};
ghost use Rattle.net_check.specs.Checked.{arc_of, checked_net, ChecksNetwork};

use net_model::{Arc, Network, Row};
use net_questions::NetworkRefusal;
use std::array;

// The arc in the places beyond those of a network.
const BLANK: Arc = Arc {
    tail: 0,
    head: 0,
    low: 0,
    up: 0,
    cost: 0,
};

// A fair arc, as it is held.
fn arc_of(row: Row) -> Arc
    requires ends { passes Ends (pos 63) row ≡ true }
    requires bounds { passes Bounds (pos 63) row ≡ true }
    ensures { result ≡ arc_of row }
{
    Arc {
        tail: row.tail as u8,
        head: row.head as u8,
        low: row.low as u32,
        up: row.up as u32,
        cost: row.cost,
    }
}

// Arc a of fair ones.
fn arc_at(arcs: &[u8], a: usize) -> Arc
    requires ends { all (passes Ends (pos 63)) (rows (ints arcs.now)) ≡ true }
    requires bounds { all (passes Bounds (pos 63)) (rows (ints arcs.now)) ≡ true }
    requires here { a < length arcs.now / 20 }
    ensures { result ≡ arc_of (get_or (rows (ints arcs.now)) a no_arc) }
{
    arc_of(net_questions::row_at(arcs, a))
}

// The struct of an accepted network. Only the places that it has arcs for are gone through.
fn fill(balances: &[u8], arcs: &[u8]) -> Network
    requires { network_refusal balances.now arcs.now ≡ 0 }
    ensures { result ≡ checked_net balances.now arcs.now }
{
    let mut net = Network {
        nodes: balances.len() / 4,
        arcs: arcs.len() / 20,
        table: [BLANK; 512],
        balances: array::from_fn(|v| bytes_read::read_i32(balances, v)),
    };
    for a in 0..arcs.len() / 20 {
        net.table[a] = arc_at(arcs, a);
    }
    net
}

// The network of two lists of bytes, or the first question that it fails.
pub fn check(balances: &[u8], arcs: &[u8]) -> Result<Network, NetworkRefusal>
    ensures { ChecksNetwork balances.now arcs.now result }
{
    net_questions::judge(balances, arcs)?;
    Ok(fill(balances, arcs))
}
