// Which orders are ready: taken, not known to be logged, and of a stamp up to which every source has been heard. Rows
// are whole here, so the loops read their cells without a guard.
ghost use Rattle.std.specs.Prelude.{◌≡◌, ◌+◌, ◌-◌, ◌*◌, ◌<◌, min, length, get_or};
ghost use Rattle.frame.specs.Lanes.{any_below};
ghost use Rattle.cells.specs.Tables.{stamp_under};
ghost use Rattle.post.specs.Record.{last_of};
ghost use Rattle.row.specs.Rows.{part, post_in, known_in};
ghost use Rattle.deliver.specs.Delivery.{all_below};
ghost use Rattle.deliver.specs.Loops.{same_at, ready_in, lowered, least_below, up_to};

use frame::{Serial, Stamp};
use row::{LENGTH, SerialCell};

// Where the parts that the loops read begin.
const LAST: usize = row::LAST as usize;

pub(crate) const KNOWN: usize = row::KNOWN as usize;

pub(crate) const TABLE: usize = row::TABLE as usize;

const STAMPS: usize = row::STAMPS as usize;

const WORDS: usize = row::WORDS as usize;

// Entries and orders of a lane, and its last serial. Places are of the machine's own width: the compiler sees that none wraps.
const LANE_ENTRIES: usize = Serial::COUNT as usize;

pub(crate) const LANE_ORDERS: usize = Serial::LAST as usize;

pub(crate) const SERIALS: u16 = Serial::LAST as u16;

// Whether each lane's last order taken is the last one known to be logged: then none waits.
pub(crate) fn none_waits(row: &[u16; LENGTH]) -> bool
    ensures { result ≡ all_below (same_at (known_in row.now) (post_in row.now).last) 8 }
{
    let mut same = true;
    for (known, last) in row[KNOWN..TABLE].iter().zip(&row[LAST..KNOWN]) {
        same &= *known == *last;
    }
    same
}

// The stamp up to which every source has been heard: the least of their entries at the last serial taken.
pub(crate) fn least_of(row: &[u16; LENGTH]) -> Option<Stamp>
    ensures { result ≡ least_below (post_in row.now).sources (post_in row.now).last (post_in row.now).table 8 }
{
    let sources = row::read_numbers(row).sources;
    let mut least = None;
    // A count: a lane is a bit of the sources, a cell of the last serials and 17 of the table.
    for i in 0..row::LANES {
        let heard = heard_under(row, i, last_of(row, i));
        least = lower(least, cells::has(sources, i), heard);
    }
    least
}

// The stamp at (lane, serial) of the table; a serial over 16 has no entry.
#[tactic(auto, unfolding(row::specs::Rows::post_in), using(crate::proofs::RowWays::entry_under, crate::proofs::RowWays::entry_past))]
fn heard_under(row: &[u16; LENGTH], lane: u16, serial: SerialCell) -> Stamp
    requires { lane < 8 }
    ensures { result.0 ≡ stamp_under (post_in row.now).table lane serial.0 }
{
    if serial.0 <= SERIALS {
        Stamp(row[TABLE + (lane as usize) * LANE_ENTRIES + (serial.0 as usize)])
    } else {
        Stamp(0)
    }
}

#[tactic(auto, unfolding(crate::specs::Loops::lowered))]
fn lower(least: Option<Stamp>, source: bool, heard: Stamp) -> Option<Stamp>
    ensures { result ≡ lowered least source heard.0 }
{
    if source {
        Some(least.map_or(heard, |least| cells::earlier(least, heard)))
    } else {
        least
    }
}

// Whether any order that waits has a stamp not above the least.
pub(crate) fn any_ready(row: &[u16; LENGTH], least: Option<Stamp>) -> bool
    ensures { result ≡ any_below (ready_in (known_in row.now) (post_in row.now).last (post_in row.now).stamps least) 8 }
{
    let mut ready = false;
    // A count: a lane is a cell of what is known, one of the last serials and 16 of the stamps.
    for lane in 0..row::LANES {
        ready |= ready_in(lane, row, least);
    }
    ready
}

fn ready_in(lane: u16, row: &[u16; LENGTH], least: Option<Stamp>) -> bool
    ensures { result ≡ ready_in (known_in row.now) (post_in row.now).last (post_in row.now).stamps least lane }
{
    let mut ready = false;
    for stamp in waiting(row, lane) {
        ready |= up_to(least, Stamp(*stamp));
    }
    ready
}

pub(crate) fn up_to(least: Option<Stamp>, stamp: Stamp) -> bool
    ensures { result ≡ up_to least stamp.0 }
{
    least.is_none_or(|least| stamp <= least)
}

// The stamps of a lane's orders that wait: taken, and not known to be logged.
pub(crate) fn waiting(row: &[u16; LENGTH], lane: u16) -> &[u16]
    ensures stamps { result.now ≡ part (post_in row.now).stamps (lane * 16 + get_or (known_in row.now) lane 0) (min (get_or (post_in row.now).last lane 0) 16 - get_or (known_in row.now) lane 0) }
    ensures count { length result.now ≡ min (get_or (post_in row.now).last lane 0) 16 - get_or (known_in row.now) lane 0 }
{
    let first = (lane as usize) * LANE_ORDERS;
    let from = first + (known_at(row, lane).0 as usize);
    let to = first + (last_of(row, lane).0.min(SERIALS) as usize);
    row[STAMPS..WORDS].get(from..to).unwrap_or(&[])
}

#[tactic(auto, unfolding(row::specs::Rows::post_in, row::specs::Rows::part))]
fn last_of(row: &[u16; LENGTH], lane: u16) -> SerialCell
    ensures { result.0 ≡ last_of (post_in row.now) lane }
{
    SerialCell(row[LAST..KNOWN].get(lane as usize).copied().unwrap_or(0))
}

#[tactic(auto, unfolding(row::specs::Rows::known_in, row::specs::Rows::part))]
pub(crate) fn known_at(row: &[u16; LENGTH], lane: u16) -> SerialCell
    ensures { result.0 ≡ get_or (known_in row.now) lane 0 }
{
    SerialCell(row[KNOWN..TABLE].get(lane as usize).copied().unwrap_or(0))
}
