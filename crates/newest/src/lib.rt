// The newest entries of a row's table, which each broadcast of its post carries. The contract of `newest_entries` cites
// specs/OnRows.antt, those of the loops specs/Loops.antt.
#![tactic(auto)]

ghost use Rattle.std.specs.Prelude.{◌≡◌, cond, ◌+◌, ◌-◌, ◌<◌, ◌≤◌, eqb, length};
ghost use Rattle.post.specs.Newest.{newest};
ghost use Rattle.newest.specs.OnRows.{entries_in};
ghost use Rattle.newest.specs.Loops.{greatest_below, last_below};

use frame::{Entry, Frame, Serial, Stamp};
use post::Post;

// Where the table stands in a row, and how many of its stamps are a lane's.
const TABLE: usize = row::TABLE as usize;

const TABLE_END: usize = row::STAMPS as usize;

const STAMPS: usize = Serial::COUNT as usize;

const NONE: Entry = Entry {
    serial: Serial(0),
    stamp: Stamp(0),
};

// The newest entry of each lane. A row that is cut short has none.
pub fn newest_entries(row: &[u16]) -> [Entry; Frame::LANES]
    ensures { result ≡ entries_in row.now }
{
    let mut entries = [NONE; Frame::LANES];
    if row.len() < row::LENGTH {
        return entries;
    }
    let table = &row[TABLE..TABLE_END];
    for (lane, entry) in entries.iter_mut().enumerate() {
        let first = lane * STAMPS;
        *entry = newest_of(&table[first..first + STAMPS]);
    }
    entries
}

// Of a lane's stamps the greatest, and the last serial that it stands under.
fn newest_of(stamps: &[u16]) -> Entry
    requires { length stamps.now ≡ 17 }
    ensures { result ≡ newest stamps.now 0 }
{
    let stamp = greatest(stamps);
    if stamp.0 == 0 {
        return NONE;
    }
    Entry {
        serial: last_under(stamps, stamp),
        stamp,
    }
}

fn greatest(stamps: &[u16]) -> Stamp
    ensures { result ≡ record { 0 = greatest_below stamps.now 0 (length stamps.now) } }
{
    let mut greatest: u16 = 0;
    for stamp in stamps {
        greatest = greatest.max(*stamp);
    }
    Stamp(greatest)
}

// The last serial that the greatest stamp stands under. By a range of serials, which `flagged` takes beside the stamps.
fn last_under(stamps: &[u16], greatest: Stamp) -> Serial
    requires { (length stamps.now ≡ 17) × (0 < greatest.0) × (greatest_below stamps.now 0 17 ≡ greatest.0) }
    ensures { result ≡ record { 0 = last_below stamps.now 0 greatest.0 17 } }
{
    let mut highest: u8 = 0;
    for serial in 1..Post::SERIALS {
        let found = flagged(Stamp(stamps[serial as usize]), greatest, Serial(serial));
        highest = highest.max(found);
    }
    Serial(highest % 32)
}

// The serial with a flag, 32, if its stamp is the greatest, or else 0. By a product and not by a test, and of no factor
// that is a power of two: so written, the compiler does eight serials at once.
fn flagged(stamp: Stamp, greatest: Stamp, serial: Serial) -> u8
    requires { (stamp.0 ≤ greatest.0) × (0 < greatest.0) × (serial.0 ≤ 16) }
    ensures { result ≡ cond (eqb stamp.0 greatest.0) (32 + serial.0) 0 }
{
    (is_greatest(stamp, greatest) * (32 + u16::from(serial.0))) as u8
}

// 1 if the stamp is the greatest, or else 0: by how much it is above what lies just below the greatest.
fn is_greatest(stamp: Stamp, greatest: Stamp) -> u16
    requires { (stamp.0 ≤ greatest.0) × (0 < greatest.0) }
    ensures { result ≡ cond (eqb stamp.0 greatest.0) 1 0 }
{
    stamp.0.saturating_sub(greatest.0 - 1)
}
