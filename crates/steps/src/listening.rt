// The hear step's refusals 21, 24, 26 and 28 to 30, and its parts 1 to 3.
ghost use Rattle.std.specs.Prelude.{◌≡◌, true, not, ◌&&◌, ◌<◌, ◌≤◌, max, ltb, leb, get_or, length, Ok};
ghost use Rattle.refusal.specs.Numbers.{refused_with};
ghost use Rattle.cells.specs.Sets.{has_lane};
ghost use Rattle.cells.specs.Tables.{order_place};
ghost use Rattle.frame.specs.Layout.{entry_of};
ghost use Rattle.post.specs.Record.{is_source, last_of};
ghost use Rattle.post.specs.Newest.{raised, raised_below, order_frame};
ghost use Rattle.row.specs.Rows.{post_in, known_in, past_in, with_table};
ghost use Rattle.steps.specs.Refusals.{is_next, has_stamp, strange_entries, strange, beyond_own, hear_refusal};
ghost use Rattle.steps.specs.Steps.{other_answer};
ghost use Rattle.steps.specs.HearAnswer.{hear_answer};
ghost use Rattle.steps.specs.Loops.{taken_raised};

use crate::Hearing;
use frame::{Entry, Frame, Serial, Stamp};
use post::Post;
use refusal::Refusal;
use row::{Numbers, SerialCell};

// Where the table stands in a row, and how many entries it has of a lane.
const TABLE: usize = row::TABLE as usize;

const TABLE_END: usize = row::STAMPS as usize;

const LANE_ENTRIES: usize = Serial::COUNT as usize;

// Whether the frame's order is the next of its lane.
pub(crate) fn is_next(f: Frame, last: SerialCell) -> bool
    ensures { result ≡ is_next f last.0 }
{
    (f.kind == Frame::ORDER) & ((f.serial.0 as u32) == (last.0 as u32) + 1)
}

// The lowest of 21, 24, 26 and 28 to 30 that holds; `last` was taken last from the frame's lane, and `next` tells whether its order is
// the next.
#[tactic(auto, unfolding(crate::specs::Refusals::hear_refusal))]
pub(crate) fn check(row: &[u16], f: Frame, last: SerialCell, next: bool) -> Result<(), Refusal>
    requires { (last.0 ≡ last_of (post_in row.now) f.lane) × (next ≡ is_next f last.0) }
    ensures { refused_with result ≡ hear_refusal (post_in row.now) f }
{
    let Numbers { lane, posts, .. } = row::read_numbers(row);
    if !cells::has(posts, lane) {
        return Err(Refusal::NotInYard);
    }
    if clock_passes(row, f, next) {
        return Err(Refusal::ClockSpent);
    }
    if (f.sender as u16) == lane {
        return Err(Refusal::OwnBroadcast);
    }
    if strange_frame(row, f) {
        return Err(Refusal::Strange);
    }
    if not_above(row, f, last, next) {
        return Err(Refusal::NotAbove);
    }
    if beyond_own(row, f) {
        return Err(Refusal::BeyondOwn);
    }
    Ok(())
}

// 24
fn clock_passes(row: &[u16], f: Frame, next: bool) -> bool
    ensures { result ≡ (next && is_source (post_in row.now) (post_in row.now).lane && leb 65535 (max (post_in row.now).clock.0 f.stamp.0)) }
{
    let Numbers {
        lane,
        sources,
        clock,
        ..
    } = row::read_numbers(row);
    next && cells::has(sources, lane) && Post::CLOCK_LIMIT <= cells::later(clock, f.stamp).0
}

// 28
fn strange_frame(row: &[u16], f: Frame) -> bool
    ensures { result ≡ strange (post_in row.now) f }
{
    let Numbers { posts, sources, .. } = row::read_numbers(row);
    !cells::has(posts, f.sender as u16)
        || (f.kind == Frame::ORDER && !cells::has(sources, f.lane as u16))
        || strange_entries(sources, f)
}

fn strange_entries(sources: u16, f: Frame) -> bool
    ensures { result ≡ strange_entries sources f }
{
    f.entries.iter().enumerate().any(|(lane, e)| e.stamp.0 != 0
        && !cells::has(sources, lane as u16))
}

// 29
fn not_above(row: &[u16], f: Frame, last: SerialCell, next: bool) -> bool
    ensures { result ≡ (next && ltb 0 last.0 && leb f.stamp.0 (get_or (post_in row.now).stamps (order_place f.lane last.0) 0)) }
{
    next && 0 < last.0 && f.stamp <= row::stamp_at(row, row::order_place(f.lane, last))
}

// 30
fn beyond_own(row: &[u16], f: Frame) -> bool
    requires { (post_in row.now).lane < 8 }
    ensures { result ≡ beyond_own (post_in row.now) f }
{
    let Numbers {
        lane,
        serial,
        clock,
        ..
    } = row::read_numbers(row);
    let own = f.entries[lane as usize];
    (f.kind == Frame::ORDER && f.lane as u16 == lane && serial.0 < f.serial.0 as u16)
        || (own.stamp.0 != 0 && (serial.0 < own.serial.0 as u16 || clock.0 < own.stamp.0))
}

// Part 1: each entry raises the table. Rows stay slices here and below: with arrays the proofs of `order` and `hear` did not close.
pub(crate) fn raise_all(row: &mut [u16], entries: &[Entry; Frame::LANES])
    requires { 543 ≤ length row.old }
    ensures row_after { post_in row.new ≡ with_table (post_in row.old) (raised_below (post_in row.old).table entries.now 8) }
    ensures known { known_in row.new ≡ known_in row.old }
    ensures past { past_in row.new ≡ past_in row.old }
{
    raise_table(&mut row[TABLE..TABLE_END], entries)
}

#[tactic(auto, using(crate::proofs::RaiseLaws::raised_more), unfolding(post::specs::Newest::raised_below))]
fn raise_table(table: &mut [u16], entries: &[Entry; Frame::LANES])
    requires { length table.old ≡ 136 }
    ensures { table.new ≡ raised_below table.old entries.now 8 }
{
    for (lane, e) in entries.iter().enumerate() {
        raise(table, lane, *e);
    }
}

// Nothing is written where the stamp is not larger: most entries of a frame are known. A serial over 16 has no entry.
#[tactic(auto, using(crate::proofs::RaiseLaws::raise_larger, crate::proofs::RaiseLaws::raise_known, crate::proofs::RaiseLaws::raise_nowhere))]
fn raise(table: &mut [u16], lane: usize, e: Entry)
    requires { (length table.old ≡ 136) × (lane < 8) }
    ensures { table.new ≡ raised table.old lane e }
{
    if e.serial.0 > Serial::LAST {
        return;
    }
    let place = lane * LANE_ENTRIES + (e.serial.0 as usize);
    if table[place] < e.stamp.0 {
        table[place] = e.stamp.0;
    }
}

// Part 3, once the entries have raised the table: the order is taken, and broadcast under the post's own lane as sender.
pub(crate) fn take(row: &mut [u16], f: Frame) -> Frame
    requires { (543 ≤ length row.old) × ((post_in row.old).lane < 8) × (has_lane (post_in row.old).sources (post_in row.old).lane ≡ true → max (post_in row.old).clock.0 f.stamp.0 < 65535) }
    ensures value { result ≡ order_frame (taken_raised (post_in row.old) f) f.lane f.serial.0 f.stamp.0 f.word }
    ensures post { post_in row.new ≡ taken_raised (post_in row.old) f }
    ensures known { known_in row.new ≡ known_in row.old }
    ensures past { past_in row.new ≡ past_in row.old }
{
    let sender = row::read_numbers(row).lane as u8;
    keep_and_tick(row, f);
    Frame {
        kind: Frame::ORDER,
        sender,
        entries: newest::newest_entries(row),
        ..f
    }
}

// The order is kept, and the clock of a source passes its stamp.
#[tactic(auto, using(row::proofs::Laws::tick_post, row::proofs::Laws::tick_known, row::proofs::Laws::tick_past), unfolding(crate::specs::Loops::taken_raised))]
fn keep_and_tick(row: &mut [u16], f: Frame)
    requires { (543 ≤ length row.old) × (has_lane (post_in row.old).sources (post_in row.old).lane ≡ true → max (post_in row.old).clock.0 f.stamp.0 < 65535) }
    ensures row_after { post_in row.new ≡ taken_raised (post_in row.old) f }
    ensures known { known_in row.new ≡ known_in row.old }
    ensures past { past_in row.new ≡ past_in row.old }
{
    let Numbers {
        lane,
        sources,
        clock,
        serial,
        ..
    } = row::read_numbers(row);
    row::keep(row, f.lane, f.serial, f.stamp, f.word);
    if cells::has(sources, lane) {
        row::tick(row, serial, Stamp(cells::later(clock, f.stamp).0 + 1));
    }
}

// What a hearing answers that is not refused and takes nothing.
pub(crate) fn other(f: Frame, last: SerialCell, count: u8) -> Hearing
    ensures { hear_answer (Ok result) ≡ other_answer f last.0 count }
{
    if f.kind != Frame::ORDER {
        Hearing::Beacon(count)
    } else if (f.serial.0 as u16) <= last.0 {
        Hearing::Again(count)
    } else {
        Hearing::Early(count)
    }
}
