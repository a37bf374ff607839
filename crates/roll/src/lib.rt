// The roll call on a yard's state: the list of single steps of document 01, run one after another. The contract of `call` cites
// specs/Calls.antt and specs/Values.antt; those of its loops cite specs/RollCall.antt besides.
#![tactic(auto)]

ghost use Rattle.std.specs.Prelude.{◌≡◌, ◌<◌, ◌≤◌, get_or};
ghost use Rattle.refusal.specs.Numbers.{refused_with};
ghost use Rattle.state.specs.States.{held_in, yard_in};
ghost use Rattle.yard.specs.InState.{after, here_in};
ghost use Rattle.roll.specs.RollAnswer.{roll_answer};
ghost use Rattle.roll.specs.RollCall.{source_spent, lanes_hears, posts_hear, beacons_sent, beacons_heard, posts_hear_beacons};
ghost use Rattle.roll.specs.Calls.{lane_heard, roll_steps_in, ran_in, roll_refusal_in, calls_in};
ghost use Rattle.roll.specs.Values.{roll_count, roll_count_in};

use refusal::Refusal;
use row::SerialCell;

// The cells of a yard, whose number the call has judged. State and air stay two parameters, and each part keeps its own loop: a struct
// of the two loans, or a closure for a lane's steps, would add to every contract what it leaves of them.
type Cells = [u16; state::LENGTH];

// The loops go by a lane's number: it picks a bit of the sets, a row of the state and a cell of it.
const LANES: u8 = state::LANES as u8;

// The roll call: hearings of first frames, beacons, hearings of the beacons (12, 13, 27). It gives how many single steps it ran: in a
// state that somebody made up each own serial may be any number of 16 bits, and the steps more than 65,535.
pub fn call(state: &mut [u16], air: &mut [u8]) -> Result<u32, Refusal>
    ensures air_after { after (roll_answer result) state.new air.new ≡ calls_in (held_in state.old) air.old }
    ensures number { refused_with result ≡ roll_refusal_in (held_in state.old) air.old }
    ensures count { roll_count (roll_answer result) ≡ roll_count_in (held_in state.old) air.old }
{
    let Some(state) = state.as_mut_array::<{ state::LENGTH }>() else {
        return Err(Refusal::BadRecord);
    };
    if air.len() != air::LENGTH {
        return Err(Refusal::BadAir);
    }
    if source_spent(state) {
        return Err(Refusal::BeaconsSpent);
    }
    Ok(run_steps(state, air))
}

// Some source has no beacon left to send: fewer sources have one than S, by the count of ones.
fn source_spent(state: &[u16]) -> bool
    ensures { result ≡ source_spent (yard_in state.now) }
{
    let sources = row::get(state, state::SOURCES);
    let mut left = 0u32;
    for i in 0..LANES {
        let sent = row::get_in(state, state::BEACONS_SENT, row::LANES, i as usize);
        left += u32::from(cells::has(sources, i as u16) && sent < yard::BEACONS);
    }
    left < (sources % 256).count_ones()
}

// The call's single steps, one after another; each part answers how many it ran.
fn run_steps(state: &mut Cells, air: &mut [u8]) -> u32
    ensures { after result state.new air.new ≡ ran_in (here_in state.old air.old) (roll_steps_in (held_in state.old) air.old) }
{
    let present = state[state::PRESENT];
    let sources = state[state::SOURCES];
    let heard = hear_orders(state, air, present);
    let from = state[state::FRAMES];
    let sent = send_beacons(state, air, sources);
    let done = hear_beacons(state, air, present, sources, from);
    heard + sent + done
}

// Each post in rising lane order hears the first frame of every order of the other lanes.
fn hear_orders(state: &mut Cells, air: &mut [u8], present: u16) -> u32
    requires { present ≡ get_or state.old 0 0 }
    ensures air_after { after result state.new air.new ≡ ran_in (here_in state.old air.old) (posts_hear (yard_in state.old) 8) }
    ensures bound { result ≤ 4194240 }
{
    let mut steps = 0;
    for p in 0..LANES {
        if cells::has(present, p as u16) {
            steps += hear_lanes(state, air, p);
        }
    }
    steps
}

// The post of lane p hears those of each other lane.
fn hear_lanes(state: &mut Cells, air: &mut [u8], p: u8) -> u32
    ensures air_after { after result state.new air.new ≡ ran_in (here_in state.old air.old) (lanes_hears (yard_in state.old) p 8) }
    ensures bound { result ≤ 524280 }
{
    let mut steps = 0;
    for q in 0..LANES {
        steps += hear_lane(state, air, p, q);
    }
    steps
}

// It hears those of lane q, if that is another lane, serials rising.
fn hear_lane(state: &mut Cells, air: &mut [u8], p: u8, q: u8) -> u32
    requires { q < 8 }
    ensures air_after { after result state.new air.new ≡ ran_in (here_in state.old air.old) (lane_heard (yard_in state.old) p q) }
    ensures bound { result ≤ 65535 }
{
    if q == p {
        return 0;
    }
    let sent = state[state::ROWS + row::LENGTH * (q as usize) + row::SERIAL];
    for serial in 1..=sent {
        let place = row::order_place(q, SerialCell(serial));
        let k = row::get_in(state, state::FIRST, row::ORDERS, place);
        let _ = yard::hear(state, air, p as usize, k as usize);
    }
    sent as u32
}

// Each source in rising order sends a beacon.
fn send_beacons(state: &mut Cells, air: &mut [u8], sources: u16) -> u32
    ensures air_after { after result state.new air.new ≡ ran_in (here_in state.old air.old) (beacons_sent sources 8) }
    ensures bound { result ≤ 8 }
{
    let mut steps = 0;
    for i in 0..LANES {
        if cells::has(sources, i as u16) {
            let _ = yard::beacon(state, air, i as usize);
            steps += 1;
        }
    }
    steps
}

// Each post in rising order hears those beacons except its own; the first of them is frame `from`.
fn hear_beacons(state: &mut Cells, air: &mut [u8], present: u16, sources: u16, from: u16) -> u32
    ensures air_after { after result state.new air.new ≡ ran_in (here_in state.old air.old) (posts_hear_beacons present sources from 8) }
    ensures bound { result ≤ 64 }
{
    let mut steps = 0;
    for p in 0..LANES {
        if cells::has(present, p as u16) {
            steps += hear_sources(state, air, sources, from, p);
        }
    }
    steps
}

// The post of lane p hears the beacon of each other source.
fn hear_sources(state: &mut Cells, air: &mut [u8], sources: u16, from: u16, p: u8) -> u32
    ensures air_after { after result state.new air.new ≡ ran_in (here_in state.old air.old) (beacons_heard sources from p 8) }
    ensures bound { result ≤ 8 }
{
    let mut steps = 0;
    let mut k = from as usize;
    for i in 0..LANES {
        if cells::has(sources, i as u16) {
            if i != p {
                let _ = yard::hear(state, air, p as usize, k);
                steps += 1;
            }
            k += 1;
        }
    }
    steps
}
