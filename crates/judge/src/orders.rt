// The orders taken: missing up to the last serial taken, or kept beyond it.
ghost use Rattle.std.specs.Prelude.{◌≡◌, not, ◌&&◌, ◌||◌, ◌<◌, ◌≤◌, eqb, length};
ghost use Rattle.frame.specs.Lanes.{any_below};
ghost use Rattle.judge.specs.Parts.{bad_order_in, bad_serial_in};

use cells::PLACES;
use frame::{Frame, Serial};

// Serial by serial, each in all lanes, with a count of 16 bits beside the index: so written, the compiler does eight serials
// of a lane at once.
#[tactic(auto, using(frame::proofs::Laws::any_more), unfolding(frame::specs::Lanes::any_below))]
pub(crate) fn bad_orders<'a>(
    last: &'a [u16; Frame::LANES],
    stamps: &'a [u16; PLACES],
    words: &'a [u16; PLACES],
) -> bool
    ensures { result ≡ any_below (bad_order_in last.now stamps.now words.now) 128 }
{
    let mut bad = false;
    let mut order: u16 = 0;
    for k in 0..Serial::LAST as usize {
        bad |= bad_serial(k, order, last, stamps, words);
        order += 1;
    }
    bad
}

// Order k of some lane. By index, since the cells of one serial stand 16 apart.
#[tactic(auto, using(crate::proofs::Laws::lane_more), unfolding(frame::specs::Lanes::any_below))]
fn bad_serial<'a>(
    k: usize,
    order: u16,
    last: &'a [u16; Frame::LANES],
    stamps: &'a [u16; PLACES],
    words: &'a [u16; PLACES],
) -> bool
    requires { (k < 16) × (order ≡ k) }
    ensures { result ≡ any_below (bad_serial_in last.now stamps.now words.now k) 8 }
{
    let mut bad = false;
    for lane in 0..Frame::LANES {
        let place = lane * (Serial::LAST as usize) + k;
        bad |= bad_order(order < last[lane], stamps[place], words[place]);
    }
    bad
}

fn bad_order(taken: bool, stamp: u16, word: u16) -> bool
    ensures { result ≡ ((taken && eqb stamp 0) || (not taken && (not (eqb stamp 0) || not (eqb word 0)))) }
{
    (taken & (stamp == 0)) | (!taken & ((stamp != 0) | (word != 0)))
}
