// The listing of the ways that an enumerator goes through.
#![tactic(auto)]

ghost use Rattle.std.specs.Prelude.{◌≡◌, ◌+◌, ◌≤◌, length};
ghost use Rattle.flow_enumerate.specs.declared.Place.TheVariants.{Item};
ghost use Rattle.way_enumerate.specs.WayEnumerator.{EnumeratesSome};
ghost use Rattle.way_list.specs.Room.{way_room, ways_room, listing_room};
ghost use Rattle.way_list.specs.WayListing.{OnFirst, ListsOne, ListsFrom, Lists};

use flow_enumerate::Place;
use text_listing::{Line, put_line, put_way};
use text_write::Writer;
use way_enumerate::WayEnumerator;

// The line of the way that an enumerator stands on.
fn list_one(ways: &WayEnumerator, writer: &mut Writer)
    requires { EnumeratesSome ways.now × (ways.now.flows.place ≡ Item) × (writer.old.at + way_room ≤ length writer.old.out.now) }
    ensures { ListsOne ways.now writer.old writer.new }
{
    let way = ways.way();
    let e = ways.entries;
    let parts = way_flow::times(&way[..e], 0);
    put_way(writer, parts, &way[..e]);
}

// The lines from the first way on, which an enumerator stands on, and the last line.
fn list_from(ways: WayEnumerator, writer: &mut Writer)
    requires { EnumeratesSome ways × (ways.flows.place ≡ Item) × (writer.old.at + ways_room ≤ length writer.old.out.now) }
    ensures { ListsFrom ways writer.old writer.new }
{
    let mut ways = ways;
    for n in 0..1000u64 {
        list_one(&ways, writer);
        ways = ways.next();
        let Place::Item = ways.flows.place else {
            put_line(writer, Line::End(n + 1));
            return;
        };
    }
    put_line(writer, Line::More);
}

// The listing of all ways, at the front of the list, by an enumerator that stands on the first of them; how long it is.
pub fn list(ways: WayEnumerator, out: &mut [u8]) -> usize
    requires { OnFirst ways × (listing_room ≤ length out.old) }
    ensures { Lists ways out.old out.new result }
{
    let mut writer = Writer { out, at: 0 };
    let cost = ways.flows.cost.unsigned_abs();
    put_line(&mut writer, Line::Cost(cost));
    list_from(ways, &mut writer);
    writer.at
}
