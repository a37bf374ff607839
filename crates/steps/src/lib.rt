// The steps of one post on its row, without the judgement of the record (12): total, and defined for every row. What is known of
// the log stands in the row. Hosts use the crate `single`, which judges first. The contracts cite specs/Knowing.antt, specs/Steps.antt
// and specs/Values.antt.
#![tactic(auto)]

mod listening;
mod ordering;

ghost use Rattle.std.specs.Prelude.{◌≡◌, IfOk, is_some};
ghost use Rattle.post.specs.Record.{last_of};
ghost use Rattle.refusal.specs.Numbers.{refused_with};
ghost use Rattle.row.specs.Rows.{post_in, known_in, past_in};
ghost use Rattle.steps.specs.Refusals.{is_next, order_refusal, hear_refusal, beacon_refusal};
ghost use Rattle.steps.specs.Steps.{beacon_step};
ghost use Rattle.steps.specs.Values.{order_serial, order_stamp, order_count, order_step_serial, order_step_stamp, hear_count};
ghost use Rattle.steps.specs.Knowing.{stepped, orders_by, order_count_by, hears_by, hear_count_by};
ghost use Rattle.steps.specs.Outcomes.{row_order_answer, ordered_frame, row_hear_answer, heard_frame, beaconed};

use frame::{Frame, Serial, Stamp};
use refusal::Refusal;
use row::Numbers;

// What an order that is sent answers: its serial, its stamp and the count delivered.
#[derive(Clone, Copy)]
pub struct Sent {
    pub serial: Serial,
    pub stamp: Stamp,
    pub count: u8,
}

// What a hearing answers, each with the count delivered.
#[derive(Clone, Copy)]
pub enum Hearing {
    Taken(u8),
    Again(u8),
    Early(u8),
    Beacon(u8),
}

// What an order answers, and its broadcast.
#[derive(Clone, Copy)]
pub struct RowOrdered {
    pub sent: Sent,
    pub frame: Frame,
}

// What a hearing answers, and the broadcast of an order that was taken.
#[derive(Clone, Copy)]
pub struct RowHeard {
    pub hearing: Hearing,
    pub frame: Option<Frame>,
}

// The post sends an order (21 to 24), and delivers.
pub fn order(row: &mut [u16], word: u16) -> Result<RowOrdered, Refusal>
    ensures frame_after { stepped (row_order_answer result) row.new (ordered_frame result) ≡ orders_by (known_in row.old) (post_in row.old) word }
    ensures past { past_in row.new ≡ past_in row.old }
    ensures number { refused_with result ≡ order_refusal (post_in row.old) }
    ensures serial { order_serial (row_order_answer result) ≡ order_step_serial (post_in row.old) }
    ensures stamp { order_stamp (row_order_answer result) ≡ order_step_stamp (post_in row.old) }
    ensures count { order_count (row_order_answer result) ≡ order_count_by (known_in row.old) (post_in row.old) word }
{
    ordering::check(row)?;
    let frame = ordering::send(row, word);
    let count = deliver::deliver(row);
    let sent = Sent {
        serial: frame.serial,
        stamp: frame.stamp,
        count,
    };
    Ok(RowOrdered { sent, frame })
}

// The post hears a frame (21, 24, 26, 28 to 30), and delivers.
pub fn hear(row: &mut [u16], f: Frame) -> Result<RowHeard, Refusal>
    ensures frame_after { stepped (row_hear_answer result) row.new (heard_frame result) ≡ hears_by (known_in row.old) (post_in row.old) f }
    ensures past { past_in row.new ≡ past_in row.old }
    ensures number { refused_with result ≡ hear_refusal (post_in row.old) f }
    ensures count { hear_count (row_hear_answer result) ≡ hear_count_by (known_in row.old) (post_in row.old) f }
    ensures broadcast { IfOk result (λ heard. is_some heard.frame ≡ is_next f (last_of (post_in row.old) f.lane)) }
{
    let last = row::last_taken(row, f.lane);
    let next = listening::is_next(f, last);
    listening::check(row, f, last, next)?;
    listening::raise_all(row, &f.entries);
    if next {
        let frame = listening::take(row, f);
        let count = deliver::deliver(row);
        return Ok(RowHeard {
            hearing: Hearing::Taken(count),
            frame: Some(frame),
        });
    }
    let count = deliver::deliver(row);
    Ok(RowHeard {
        hearing: listening::other(f, last, count),
        frame: None,
    })
}

// The post sends a beacon (21); it stays as it is.
#[tactic(auto, using(crate::proofs::Ways::entries_sent), unfolding(crate::specs::Steps::beacon_step))]
pub fn beacon(row: &[u16]) -> Result<Frame, Refusal>
    ensures value { beaconed result ≡ beacon_step (post_in row.now) }
    ensures number { refused_with result ≡ beacon_refusal (post_in row.now) }
{
    let Numbers { lane, posts, .. } = row::read_numbers(row);
    if !cells::has(posts, lane) {
        return Err(Refusal::NotInYard);
    }
    Ok(Frame {
        kind: Frame::BEACON,
        sender: lane as u8,
        lane: 0,
        serial: Serial(0),
        stamp: Stamp(0),
        word: 0,
        entries: newest::newest_entries(row),
    })
}
