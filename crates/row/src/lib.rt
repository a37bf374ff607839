// A post's record in one lent row of cells: reads and writes that never leave it. A read outside a part gives 0, a write
// outside changes nothing, so every function is defined for every row and no caller owes a bound. The contracts cite
// specs/Rows.antt, which has the layout.
#![tactic(auto)]

ghost use Rattle.std.specs.Prelude.{◌≡◌, get_or, set, take};
ghost use Rattle.cells.specs.Tables.{entry_place, order_place};
ghost use Rattle.post.specs.Record.{last_of, with_log};
ghost use Rattle.post.specs.Taking.{kept};
ghost use Rattle.row.specs.Rows.{part, put_in, post_in, known_in, past_in, numbers_of, ticked_row};

use frame::{Frame, Serial, Stamp};

// A serial as a cell holds it: in a row that somebody made up it may be any number of 16 bits.
#[derive(Clone, Copy)]
pub struct SerialCell(pub u16);

impl From<Serial> for SerialCell {
    ghost from_gives = { λ serial cell. cell.0 ≡ serial.0 };

    fn from(serial: Serial) -> Self {
        SerialCell(u16::from(serial.0))
    }
}

// The numbers of a record: lane, sets of lanes, clock, own serial, and the length of the log.
#[derive(Clone, Copy)]
pub struct Numbers {
    pub lane: u16,
    pub posts: u16,
    pub sources: u16,
    pub dests: u16,
    pub clock: Stamp,
    pub serial: SerialCell,
    pub logged: u16,
}

// Cells of a part: one a lane, one an entry of the table, one an order.
pub const LANES: u16 = Frame::LANES as u16;

pub const ENTRIES: u16 = cells::TABLE as u16;

pub const ORDERS: u16 = cells::PLACES as u16;

// Entries and orders of a lane, and the last serial.
const LANE_ENTRIES: usize = Serial::COUNT as usize;

const LANE_ORDERS: usize = Serial::LAST as usize;

const LAST_SERIAL: u16 = Serial::LAST as u16;

// Where each number stands, and where each part begins.
pub const LANE: usize = 0;

pub const SOURCES: usize = 1;

pub const DESTS: usize = 2;

pub const CLOCK: usize = 3;

pub const SERIAL: usize = 4;

pub const LOGGED: usize = 5;

pub const LAST: u16 = 6;

pub const KNOWN: u16 = LAST + LANES;

pub const TABLE: u16 = KNOWN + LANES;

pub const STAMPS: u16 = TABLE + ENTRIES;

pub const WORDS: u16 = STAMPS + ORDERS;

pub const LOG: u16 = WORDS + ORDERS;

pub const POSTS: usize = (LOG + ORDERS) as usize;

pub const LENGTH: usize = POSTS + 1;

// Cell i.
pub fn get(row: &[u16], i: usize) -> u16
    ensures { result ≡ get_or row.now i 0 }
{
    row.get(i).copied().unwrap_or(0)
}

pub fn put(row: &mut [u16], i: usize, v: u16)
    ensures { row.new ≡ set row.old i v }
{
    // Not by `get_mut`: after a write through it a proof knows the length alone.
    if i < row.len() {
        row[i] = v;
    }
}

// Cell i of the n from `first` on. First cell and count stay two parameters here and in `put_in`, as the callers above pass them.
pub fn get_in(row: &[u16], first: u16, n: u16, i: usize) -> u16
    ensures { result ≡ get_or (part row.now first n) i 0 }
{
    if i < n as usize {
        get(row, first as usize + i)
    } else {
        0
    }
}

pub fn put_in(row: &mut [u16], first: u16, n: u16, i: usize, v: u16)
    ensures { row.new ≡ put_in row.old first n i v }
{
    if i < n as usize {
        put(row, first as usize + i, v);
    }
}

// The numbers of a record.
#[tactic(auto, unfolding(crate::specs::Rows::post_in))]
pub fn read_numbers(row: &[u16]) -> Numbers
    ensures { result ≡ numbers_of (post_in row.now) }
{
    Numbers {
        lane: get(row, LANE),
        posts: get(row, POSTS),
        sources: get(row, SOURCES),
        dests: get(row, DESTS),
        clock: Stamp(get(row, CLOCK)),
        serial: SerialCell(get(row, SERIAL)),
        logged: get(row, LOGGED),
    }
}

// The places in a row's log: as many as its length says, or all that there are where it is cut short.
pub fn log_of(row: &[u16]) -> &[u16]
    ensures { result.now ≡ take (post_in row.now).logged (post_in row.now).log }
{
    let logged = read_numbers(row).logged as usize;
    let rest = &row[(LOG as usize).min(row.len())..];
    let log = &rest[..cells::PLACES.min(rest.len())];
    &log[..logged.min(log.len())]
}

// The place that stands k-th in the log.
#[tactic(auto, unfolding(crate::specs::Rows::post_in))]
pub fn log_at(row: &[u16], k: usize) -> u16
    ensures { result ≡ get_or (post_in row.now).log k 0 }
{
    get_in(row, LOG, ORDERS, k)
}

pub fn put_log_at(row: &mut [u16], k: usize, place: u16)
    ensures row_after { post_in row.new ≡ with_log (post_in row.old) (set (post_in row.old).log k place) (post_in row.old).logged }
    ensures known { known_in row.new ≡ known_in row.old }
    ensures past { past_in row.new ≡ past_in row.old }
{
    put_in(row, LOG, ORDERS, k, place)
}

// The last serial taken from a lane.
#[tactic(auto, unfolding(crate::specs::Rows::post_in))]
pub fn last_taken(row: &[u16], lane: u8) -> SerialCell
    ensures { result.0 ≡ last_of (post_in row.now) lane }
{
    SerialCell(get_in(row, LAST, LANES, lane as usize))
}

// The stamp of the order at a place.
#[tactic(auto, unfolding(crate::specs::Rows::post_in))]
pub fn stamp_at(row: &[u16], place: usize) -> Stamp
    ensures { result.0 ≡ get_or (post_in row.now).stamps place 0 }
{
    Stamp(get_in(row, STAMPS, ORDERS, place))
}

// Where entry (lane, serial) stands in the newest-stamp table: past its end for a serial over 16.
fn entry_place(lane: u16, serial: SerialCell) -> usize
    ensures { result ≡ entry_place lane serial.0 }
{
    if serial.0 > LAST_SERIAL {
        return cells::TABLE;
    }
    lane as usize * LANE_ENTRIES + serial.0 as usize
}

// Where order (lane, serial) stands among the orders taken: past their end for a serial other than 1 to 16.
pub fn order_place(lane: u8, serial: SerialCell) -> usize
    ensures { result ≡ order_place lane serial.0 }
{
    if serial.0 == 0 || serial.0 > LAST_SERIAL {
        return cells::PLACES;
    }
    lane as usize * LANE_ORDERS + (serial.0 as usize - 1)
}

// The order is kept, and it is the last taken from its lane.
pub fn keep(row: &mut [u16], lane: u8, serial: Serial, stamp: Stamp, word: u16)
    ensures row_after { post_in row.new ≡ kept (post_in row.old) lane serial.0 stamp.0 word }
    ensures known { known_in row.new ≡ known_in row.old }
    ensures past { past_in row.new ≡ past_in row.old }
{
    let place = order_place(lane, SerialCell::from(serial));
    put_in(row, LAST, LANES, lane as usize, serial.0 as u16);
    put_in(row, STAMPS, ORDERS, place, stamp.0);
    put_in(row, WORDS, ORDERS, place, word);
}

// The post's own serial and its clock, which is also its entry of the table.
pub fn tick(row: &mut [u16], serial: SerialCell, clock: Stamp)
    ensures { row.new ≡ ticked_row row.old serial.0 clock.0 }
{
    let place = entry_place(get(row, LANE), serial);
    put(row, CLOCK, clock.0);
    put(row, SERIAL, serial.0);
    put_in(row, TABLE, ENTRIES, place, clock.0);
}
