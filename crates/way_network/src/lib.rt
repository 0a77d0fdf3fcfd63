// The network of a checked book.
#![tactic(auto)]

ghost use Rattle.std.specs.Prelude.{◌≡◌, [], ◌∷◌, ◌++◌, ◌+◌, ◌*◌, ◌≤◌, ◌<◌, pos, neg_ℤ, replicate};
ghost use Rattle.laws.specs.Padded.{padded};
ghost use Rattle.book_form.specs.Held.{Held};
ghost use Rattle.way_joins.specs.Tables.{HasTables};
ghost use Rattle.way_network.specs.Network.{arc_with, put_arc, put_arcs, AddsJoins, rows_by, IsNetworkOf};

use book_form::CheckedBook;
use net_model::{Arc, Network};
use way_joins::join_of;

// The arc with these numbers; 57 is the last node of a book of 28 entries.
fn arc_with(tail: usize, head: usize, low: u32, up: u32, cost: u32) -> Arc
    requires { (tail ≤ 57) × (head ≤ 57) × (cost ≤ 1000000) }
    ensures { result ≡ arc_with tail head low up cost }
{
    Arc {
        tail: tail as u8,
        head: head as u8,
        low,
        up,
        cost: cost as i32,
    }
}

// An arc put behind those of a network.
fn put_arc(net: &mut Network, arc: Arc)
    requires { net.old.arcs < 512 }
    ensures { net.new ≡ put_arc net.old arc }
{
    let m = net.arcs;
    net.table[m] = arc;
    net.arcs = m + 1;
}

// The joins of entry j, highest predecessor first, and its opening arc; a book has at most 463 arcs.
fn put_joins(book: &CheckedBook, j: usize, net: &mut Network)
    requires { HasTables book.now × (1 ≤ j) × (j ≤ book.now.count) × (net.old.arcs ≤ 463) }
    ensures { AddsJoins book.now j net.old net.new }
{
    for i in (0..=book.count).rev() {
        if let Some(cost) = join_of(book, i, j) {
            put_arc(net, arc_with(2 * i, 2 * j - 1, 0, 1, cost));
        }
    }
}

// The arcs behind the joins: the entry arcs, the arcs to the last node, and the arc from the first node to the last.
fn put_rows(e: usize, players: u32, net: &mut Network)
    requires { (e ≤ 28) × (net.old.arcs + 2 * e < 512) }
    ensures { net.new ≡ put_arcs net.old (rows_by e players) }
{
    let last = 2 * e + 1;
    for j in 1..=e {
        put_arc(net, arc_with(2 * j - 1, 2 * j, 1, 1, 0));
    }
    for j in 1..=e {
        put_arc(net, arc_with(2 * j, last, 0, 1, 0));
    }
    put_arc(net, arc_with(0, last, 0, players, 0));
}

// The balances: the players at the first node, and less as many at the last.
fn balances_of(players: u32, e: usize) -> [i32; 64]
    requires { (players ≤ 8) × (e ≤ 28) }
    ensures { result ≡ padded 64 (pos 0) (pos players ∷ (replicate (2 * e) (pos 0) ++ (neg_ℤ (pos players) ∷ []))) }
{
    let mut r = [0; 64];
    let p = players as i32;
    r[0] = p;
    r[2 * e + 1] = -p;
    r
}

// The network of a book.
pub fn network_of(book: &CheckedBook) -> Network
    requires { Held book.now }
    ensures { IsNetworkOf book.now result }
{
    let e = book.count;
    let none = Arc {
        tail: 0,
        head: 0,
        low: 0,
        up: 0,
        cost: 0,
    };
    let mut net = Network {
        nodes: 2 * e + 2,
        arcs: 0,
        balances: balances_of(book.players, e),
        table: [none; 512],
    };
    for j in 1..=e {
        put_joins(book, j, &mut net);
    }
    put_rows(e, book.players, &mut net);
    net
}
