// The yard in one lent state: order, hear and beacon in place. Every function is total: any cells, any air, any arguments, and a
// refusal leaves state and air as they were. The contracts cite specs/InState.antt, and specs/Answers.antt for what a step answers.
#![tactic(auto)]

mod parts;

ghost use Rattle.std.specs.Prelude.{◌≡◌};
ghost use Rattle.refusal.specs.Numbers.{refused_with};
ghost use Rattle.steps.specs.OrderAnswer.{order_answer};
ghost use Rattle.steps.specs.HearAnswer.{hear_answer};
ghost use Rattle.steps.specs.BeaconAnswer.{beacon_answer};
ghost use Rattle.steps.specs.Values.{order_serial, order_stamp, order_count, hear_count};
ghost use Rattle.state.specs.States.{held_in};
ghost use Rattle.yard.specs.InState.{after, orders_in, hears_in, beacons_in};
ghost use Rattle.yard.specs.Answers.{order_refusal_in, order_serial_in, order_stamp_in, order_count_in, hear_refusal_in, hear_count_in, beacon_refusal_in};

use refusal::Refusal;
use steps::{Hearing, RowHeard, RowOrdered, Sent};

// How many beacons each post may send.
pub const BEACONS: u16 = 128;

// Order (lane, word) in the yard (4, 5, 12, 13, then 21 to 24).
pub fn order(state: &mut [u16], air: &mut [u8], lane: usize, word: usize) -> Result<Sent, Refusal>
    ensures air_after { after (order_answer result) state.new air.new ≡ orders_in (held_in state.old) air.old lane word }
    ensures number { refused_with result ≡ order_refusal_in (held_in state.old) air.old lane word }
    ensures serial { order_serial (order_answer result) ≡ order_serial_in (held_in state.old) air.old lane word }
    ensures stamp { order_stamp (order_answer result) ≡ order_stamp_in (held_in state.old) air.old lane word }
    ensures count { order_count (order_answer result) ≡ order_count_in (held_in state.old) air.old lane word }
{
    if state::LANES <= lane {
        return Err(Refusal::LaneOver7);
    }
    let Ok(word) = u16::try_from(word) else {
        return Err(Refusal::WordTooLarge);
    };
    if state.len() != state::LENGTH {
        return Err(Refusal::BadRecord);
    }
    if air.len() != air::LENGTH {
        return Err(Refusal::BadAir);
    }
    let start = state::ROWS + row::LENGTH * lane;
    let frames = row::get(state, state::FRAMES);
    let RowOrdered { sent, frame } = steps::order(&mut state[start..start + row::LENGTH], word)?;
    parts::broadcast(state, air, frame);
    parts::note_first(state, lane as u8, frame.serial, frames);
    Ok(sent)
}

// Hear (lane, frame k) in the yard (4, 12, 13, 21, 25, 26; in a sound yard nothing else of what the post's step judges arises).
pub fn hear(state: &mut [u16], air: &mut [u8], lane: usize, k: usize) -> Result<Hearing, Refusal>
    ensures air_after { after (hear_answer result) state.new air.new ≡ hears_in (held_in state.old) air.old lane k }
    ensures number { refused_with result ≡ hear_refusal_in (held_in state.old) air.old lane k }
    ensures count { hear_count (hear_answer result) ≡ hear_count_in (held_in state.old) air.old lane k }
{
    parts::check(state, lane)?;
    let start = state::ROWS + row::LENGTH * lane;
    let frames = row::get(state, state::FRAMES);
    let heard = parts::frame_for(&state[start..start + row::LENGTH], air, frames, k)?;
    let RowHeard { hearing, frame } = steps::hear(&mut state[start..start + row::LENGTH], heard)?;
    if let Some(passed_on) = frame {
        parts::broadcast(state, air, passed_on);
    }
    Ok(hearing)
}

// Beacon (lane) in the yard (4, 12, 13, 21, 27).
pub fn beacon(state: &mut [u16], air: &mut [u8], lane: usize) -> Result<(), Refusal>
    ensures air_after { after (beacon_answer result) state.new air.new ≡ beacons_in (held_in state.old) air.old lane }
    ensures number { refused_with result ≡ beacon_refusal_in (held_in state.old) air.old lane }
{
    parts::check(state, lane)?;
    let start = state::ROWS + row::LENGTH * lane;
    let sent = row::get_in(state, state::BEACONS_SENT, row::LANES, lane);
    parts::check_beacon(&state[start..start + row::LENGTH], air, sent)?;
    let frame = steps::beacon(&state[start..start + row::LENGTH])?;
    row::put_in(state, state::BEACONS_SENT, row::LANES, lane, sent + 1);
    parts::broadcast(state, air, frame);
    Ok(())
}
