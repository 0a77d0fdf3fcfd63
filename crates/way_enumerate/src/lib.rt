// An enumerator of the full list of a book, as a state by value: that of its network, whose flows are read as ways.
#![tactic(auto)]

ghost use Rattle.std.specs.Prelude.{◌≡◌, ◌+◌, ◌≤◌, length};
ghost use Rattle.flow_enumerate.specs.Enumerator.{word_after};
ghost use Rattle.flow_enumerate.specs.declared.Place.TheVariants.{Item, None};
ghost use Rattle.way_theory.specs.FullWays.{first_way};
ghost use Rattle.book_form.specs.Held.{Held};
ghost use Rattle.way_enumerate.specs.WayEnumerator.{EnumeratesSome, way_at, way_after, WayStarts, WayResumes, WayIsItem, WaySteps, Tells, WayCounts};

use book_form::CheckedBook;
use flow_enumerate::Enumerator;
use way_network::network_of;

#[derive(Clone, Copy)]
pub struct WayEnumerator {
    pub flows: Enumerator,
    pub entries: usize,
}

// An enumerator that has not begun.
pub fn start(book: &CheckedBook) -> WayEnumerator
    requires { Held book.now }
    ensures { WayStarts book.now result }
{
    WayEnumerator {
        flows: flow_enumerate::start(network_of(book)),
        entries: book.count,
    }
}

// An enumerator that stands on a given list of numbers, if that is a least-cost way (question 18); else one that has not begun.
pub fn resume(book: &CheckedBook, given: &[u32]) -> WayEnumerator
    requires { Held book.now × (length given.now ≡ book.now.count) }
    ensures { WayResumes book.now given.now result }
{
    let entries = book.count;
    let net = network_of(book);
    let flow = way_flow::flow_of(entries, book.players, net.arcs(), given);
    WayEnumerator {
        flows: flow_enumerate::resume(net, flow),
        entries,
    }
}

// Question 18 as a test: whether a given list of numbers is a least-cost way. It begins as `resume` does: one function for both would copy the
// network and the flow once more.
pub fn is_item(book: &CheckedBook, given: &[u32]) -> bool
    requires { Held book.now × (length given.now ≡ book.now.count) }
    ensures { WayIsItem book.now given.now result }
{
    let net = network_of(book);
    let flow = way_flow::flow_of(book.count, book.players, net.arcs(), given);
    flow_enumerate::is_item(net, flow)
}

impl WayEnumerator {
    // The first way.
    pub fn first(self) -> WayEnumerator
        requires { EnumeratesSome self }
        ensures { WaySteps self None first_way result }
    {
        WayEnumerator {
            flows: self.flows.first(),
            ..self
        }
    }

    // The next way; where it stands on none, it stays.
    pub fn next(self) -> WayEnumerator
        requires { EnumeratesSome self }
        ensures { WaySteps self (word_after self.flows.place) (λ b. way_after b (way_at b self)) result }
    {
        WayEnumerator {
            flows: self.flows.next(),
            ..self
        }
    }

    // The way that it stands on.
    pub fn way(&self) -> [u32; 28]
        requires { EnumeratesSome self.now × (self.now.flows.place ≡ Item) }
        ensures { Tells self.now result }
    {
        let m = self.flows.net.arcs;
        way_flow::way_of(self.entries, self.flows.net.arcs(), &self.flows.flow[..m])
    }

    // How many ways there are; one more than the cap if there are more than the cap.
    pub fn count(self, cap: u16) -> usize
        requires { EnumeratesSome self }
        ensures { (result ≤ cap + 1) × WayCounts self cap result }
    {
        self.flows.count(cap)
    }
}
