// What the steps of a yard are made of: the frame read from the air for a post, the broadcast put on it, what is noted of it.
ghost use Rattle.std.specs.Prelude.{◌≡◌, cond, ◌&&◌, ltb, eqb, get_or, set, length, IfOk};
ghost use Rattle.refusal.specs.Numbers.{refusal_number, refused_with};
ghost use Rattle.air.specs.Air.{frames_with};
ghost use Rattle.cells.specs.Tables.{order_place};
ghost use Rattle.row.specs.Rows.{put_in, post_in};
ghost use Rattle.steps.specs.Refusals.{not_in_yard};
ghost use Rattle.yard.specs.Singles.{frames_after, stops_hearing, frame_at, stops_beacon};

use crate::BEACONS;
use frame::{Frame, Serial};
use refusal::Refusal;
use row::{Numbers, SerialCell};

// A lane over 7 (4), then a state of another length (12).
pub(crate) fn check(state: &[u16], lane: usize) -> Result<(), Refusal>
    ensures { refused_with result ≡ cond (ltb 7 lane) 4 (cond (eqb (length state.now) 4483) 0 12) }
{
    if state::LANES <= lane {
        return Err(Refusal::LaneOver7);
    }
    if state.len() != state::LENGTH {
        return Err(Refusal::BadRecord);
    }
    Ok(())
}

// Frame k as the post of a row is to hear it, or what stops the hearing (13, 21 before 25, what reading refuses). The air gives back
// that stretch of itself, which the reader then decodes.
pub(crate) fn frame_for(row: &[u16], air: &[u8], frames: u16, k: usize) -> Result<Frame, Refusal>
    ensures refusal_value { refused_with result ≡ stops_hearing air.now (post_in row.now) frames k }
    ensures frame { IfOk result (λ heard. heard ≡ frame_at air.now k) }
{
    match air::check(air, frames as usize, k) {
        Ok(()) => Frame::read(air::stretch(air, frames as usize, k)),
        Err(refusal) => Err(absent(row, refusal)),
    }
}

// What the post of a row is told where the air refuses a frame (13, 25): a post that is not in the yard 21, before 25.
fn absent(row: &[u16], refusal: Refusal) -> Refusal
    ensures { refusal_number result ≡ cond (eqb (refusal_number refusal) 25 && not_in_yard (post_in row.now).posts (post_in row.now).lane) 21 (refusal_number refusal) }
{
    let Numbers { lane, posts, .. } = row::read_numbers(row);
    if refusal == Refusal::NotOnAir && !cells::has(posts, lane) {
        return Refusal::NotInYard;
    }
    refusal
}

// Puts f on the air as its next frame, and counts it.
pub(crate) fn broadcast(state: &mut [u16], air: &mut [u8], f: Frame)
    requires { length air.old ≡ 65536 }
    ensures state_after { state.new ≡ set state.old 2 (frames_after air.old (get_or state.old 2 0) f) }
    ensures bytes { air.new ≡ frames_with air.old (get_or state.old 2 0) f }
{
    let frames = row::get(state, state::FRAMES);
    if air::write(air, frames as usize, f).is_ok() {
        row::put(state, state::FRAMES, frames + 1);
    }
}

// Where an order was broadcast since there were `before` frames, that is the number of its first frame.
pub(crate) fn note_first(state: &mut [u16], lane: u8, serial: Serial, before: u16)
    ensures { state.new ≡ cond (ltb before (get_or state.old 2 0)) (put_in state.old 11 128 (order_place lane serial.0) before) state.old }
{
    let after = row::get(state, state::FRAMES);
    if before < after {
        let place = row::order_place(lane, SerialCell(serial.0 as u16));
        row::put_in(state, state::FIRST, row::ORDERS, place, before);
    }
}

// What stops a beacon of the post of a row, which has sent so many (13, 21, 27), before its broadcast is made.
pub(crate) fn check_beacon(row: &[u16], air: &[u8], beacons: u16) -> Result<(), Refusal>
    ensures { refused_with result ≡ stops_beacon air.now (post_in row.now) beacons }
{
    if air.len() != air::LENGTH {
        return Err(Refusal::BadAir);
    }
    let Numbers { lane, posts, .. } = row::read_numbers(row);
    if !cells::has(posts, lane) {
        return Err(Refusal::NotInYard);
    }
    if BEACONS <= beacons {
        return Err(Refusal::BeaconsSpent);
    }
    Ok(())
}
