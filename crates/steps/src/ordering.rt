// The order step's refusals 21 to 24, and what it does where none of them holds.
ghost use Rattle.std.specs.Prelude.{◌≡◌, ◌<◌, ◌≤◌, length};
ghost use Rattle.refusal.specs.Numbers.{refused_with};
ghost use Rattle.post.specs.Taking.{own_taken};
ghost use Rattle.row.specs.Rows.{post_in, known_in, past_in};
ghost use Rattle.steps.specs.Refusals.{order_refusal};
ghost use Rattle.steps.specs.Steps.{order_sent};

use frame::{Frame, Serial, Stamp};
use post::Post;
use refusal::Refusal;
use row::{Numbers, SerialCell};

// Orders that a lane may send.
const ORDERS: u16 = Serial::LAST as u16;

// The lowest of 21 to 24 that holds.
#[tactic(auto, unfolding(crate::specs::Refusals::order_refusal))]
pub(crate) fn check(row: &[u16]) -> Result<(), Refusal>
    ensures { refused_with result ≡ order_refusal (post_in row.now) }
{
    let Numbers {
        lane,
        posts,
        sources,
        clock,
        serial,
        ..
    } = row::read_numbers(row);
    if !cells::has(posts, lane) {
        return Err(Refusal::NotInYard);
    }
    if !cells::has(sources, lane) {
        return Err(Refusal::NoSource);
    }
    if ORDERS <= serial.0 {
        return Err(Refusal::SerialsSpent);
    }
    if Post::CLOCK_LIMIT <= clock.0 {
        return Err(Refusal::ClockSpent);
    }
    Ok(())
}

// The post takes its own order, and broadcasts it. A slice, as in `raise_all`.
pub(crate) fn send(row: &mut [u16], word: u16) -> Frame
    requires { (543 ≤ length row.old) × ((post_in row.old).lane < 8) × ((post_in row.old).clock.0 < 65535) × ((post_in row.old).serial.0 < 16) }
    ensures value { result ≡ (order_sent (post_in row.old) word).frame }
    ensures post { post_in row.new ≡ own_taken (post_in row.old) word }
    ensures known { known_in row.new ≡ known_in row.old }
    ensures past { past_in row.new ≡ past_in row.old }
{
    let numbers = row::read_numbers(row);
    let lane = numbers.lane as u8;
    let serial = Serial((numbers.serial.0 + 1) as u8);
    let stamp = Stamp(numbers.clock.0 + 1);
    row::tick(row, SerialCell(serial.0 as u16), stamp);
    row::keep(row, lane, serial, stamp, word);
    Frame {
        kind: Frame::ORDER,
        sender: lane,
        lane,
        serial,
        stamp,
        word,
        entries: newest::newest_entries(row),
    }
}
