// The map of a trace is written into rows that the caller lends.
ghost use Rattle.std.specs.Prelude.{◌≡◌, ◌<◌, ◌≤◌, length, take, drop};
ghost use Rattle.events.specs.First.{first_fit, told};
ghost use Rattle.order.specs.Maps.{MapOf};
ghost use Rattle.trace.specs.Meaning.{opening_of, noted_of};
ghost use Rattle.mapping.specs.Rows.{Mappable};
ghost use Rattle.mapping.specs.Mapped.{map_tests, Mapped, EqualMapped, OneMapped};

use crate::latest::Latest;
use crate::placed::Placed;
use crate::places::Bases;
use crate::refusal::MapRefusal;
use events::Event;
use order::Row;
use trace::Trace;

// Writes the rows of the events.
fn fill(events: &[Event], rows: &mut [Row])
    requires fit { Mappable events.now }
    requires room { length events.now ≤ length rows.old }
    ensures map { MapOf events.now (take (length events.now) rows.new) }
    ensures beyond { drop (length events.now) rows.new ≡ drop (length events.now) rows.old }
{
    let bases = Bases::new(events);
    let mut latest = Latest::none();
    for event in events {
        let placed = Placed { event: *event };
        let row = latest.row(placed);
        latest.note(placed, row);
        let at = bases.position(placed);
        rows[at] = row;
    }
}

// Whether a map is written, or why not.
fn granted(trace: &Trace, room: usize) -> Result<(), MapRefusal>
    ensures { result ≡ told (first_fit (map_tests (opening_of trace.now) (noted_of trace.now) room)) }
{
    trace.opened().map_err(|_| MapRefusal::Void)?;
    if room < trace.events().len() {
        return Err(MapRefusal::Rows);
    }
    Ok(())
}

// Writes one row for each noted event, by thread and then by place, and answers how many; rows
// beyond stay as they were. A refusal leaves every row.
#[tactic(auto, using(crate::proofs::Laws::equal_mapped, crate::proofs::Laws::one_mapped))]
pub fn map(trace: &Trace, rows: &mut [Row]) -> Result<usize, MapRefusal>
    ensures mapped { Mapped (opening_of trace.now) (noted_of trace.now) rows.old result rows.new }
    ensures equal { EqualMapped }
    ensures one { OneMapped }
{
    granted(trace, rows.len())?;
    let events = trace.events();
    fill(events, rows);
    Ok(events.len())
}
