// The log: an order that it repeats or that is not taken, or something past its end; and what it makes known.
ghost use Rattle.std.specs.Prelude.{◌≡◌, ℕ, ◌+◌, ◌-◌, ◌≤◌, length, set};
ghost use Rattle.frame.specs.Lanes.{any_below};
ghost use Rattle.deliver.specs.Known.{advanced, known_below};
ghost use Rattle.judge.specs.Parts.{bad_used_in, bad_place_in, bad_unused_in};

use cells::PLACES;
use frame::{Frame, Serial};

// Something from place n of the log on.
#[tactic(auto, using(frame::proofs::Laws::any_more), unfolding(frame::specs::Lanes::any_below))]
pub(crate) fn bad_unused(log: &[u16; PLACES], n: u16) -> bool
    requires { n ≤ 128 }
    ensures { result ≡ any_below (λ (k : ℕ). bad_unused_in log.now (n + k)) (128 - n) }
{
    let mut bad = false;
    for &place in &log[n as usize..] {
        bad |= place != 0;
    }
    bad
}

// A bad order among the first n of the log; `known` gets what these make known.
#[tactic(auto, unfolding(frame::specs::Lanes::any_below, deliver::specs::Known::known_below, deliver::specs::Loops::marks_below))]
pub(crate) fn bad_used<'a>(
    last: &'a [u16; Frame::LANES],
    log: &'a [u16; PLACES],
    n: u16,
    known: &mut [u16; Frame::LANES],
) -> bool
    requires { n ≤ 128 }
    ensures value { result ≡ any_below (bad_used_in last.now log.now) n }
    ensures known { known.new ≡ known_below known.old log.now 0 n }
{
    let mut bad = false;
    let mut marks = [0; PLACES];
    for &place in &log[..n as usize] {
        bad |= bad_place(place, last, &mut marks, known);
    }
    bad
}

// An order that is logged: bad if it bears a mark or is not taken. It gets a mark; if it is the next of its lane one more
// order of that lane is known.
#[tactic(auto, using(crate::proofs::Laws::advanced_out))]
fn bad_place(
    place: u16,
    last: &[u16; Frame::LANES],
    marks: &mut [u8; PLACES],
    known: &mut [u16; Frame::LANES],
) -> bool
    ensures value { result ≡ bad_place_in last.now marks.old place }
    ensures marks { marks.new ≡ set marks.old place 1 }
    ensures known { known.new ≡ advanced known.old place }
{
    let i = place as usize;
    if PLACES <= i {
        return true;
    }
    let lane = i / (Serial::LAST as usize);
    let order = place % (Serial::LAST as u16);
    let again = marks[i] != 0;
    marks[i] = 1;
    deliver::advance(known, place);
    again | (last[lane] <= order)
}
