// A post run singly: the entries for hosts and firmware. Each judges everything that it is handed, the record too (12),
// and a refusal leaves post and buffer as they were. The record is put into a row, the step runs there, and the row's record
// is handed back. The contracts cite specs/Single.antt, through specs/Outcomes.antt; that of `put_judged` specs/Judged.antt.
#![tactic(auto)]

ghost use Rattle.std.specs.Prelude.{◌≡◌, cond, IsOk};
ghost use Rattle.refusal.specs.Numbers.{refused_with};
ghost use Rattle.frame.specs.Refusals.{bad_length};
ghost use Rattle.judge.specs.Judgement.{record_refusal};
ghost use Rattle.steps.specs.BeaconAnswer.{beacon_answer};
ghost use Rattle.steps.specs.Values.{order_serial, order_stamp, order_count, hear_count};
ghost use Rattle.single.specs.Judged.{Judged};
ghost use Rattle.single.specs.Outcomes.{fresh_answer, ordered_answer, heard_answer};
ghost use Rattle.single.specs.Single.{fresh_singly, order_refusal_singly, order_singly, order_serial_singly, order_stamp_singly, order_count_singly, order_buffer, hear_refusal_singly, hear_singly, hear_count_singly, hear_buffer, beacon_refusal_singly, beacon_singly, beacon_buffer};

use frame::Frame;
use post::Post;
use refusal::Refusal;
use steps::{Hearing, RowHeard, RowOrdered, Sent};

// What an order that is sent answers, and the post after it.
#[derive(Clone, Copy)]
pub struct Ordered {
    pub sent: Sent,
    pub post: Post,
}

// What a hearing answers, and the post after it.
#[derive(Clone, Copy)]
pub struct Heard {
    pub hearing: Hearing,
    pub post: Post,
}

// A fresh post by lane and roles (12, 21).
pub fn fresh(lane: u8, posts: u8, sources: u8, dests: u8) -> Result<Post, Refusal>
    ensures { fresh_answer result ≡ fresh_singly lane posts sources dests }
{
    let post = Post::new(lane, posts, sources, dests);
    put_judged(&mut [0; row::LENGTH], post)?;
    if !cells::has(posts as u16, lane as u16) {
        return Err(Refusal::NotInYard);
    }
    Ok(post)
}

// The post sends an order (6, 12, 21 to 24); its broadcast goes into the buffer.
pub fn order(p: Post, word: u16, buffer: &mut [u8]) -> Result<Ordered, Refusal>
    ensures value { ordered_answer p result ≡ order_singly p word buffer.old }
    ensures buffer { buffer.new ≡ order_buffer p word buffer.old }
    ensures number { refused_with result ≡ order_refusal_singly p buffer.old }
    ensures serial { order_serial (ordered_answer p result).answer ≡ order_serial_singly p buffer.old }
    ensures stamp { order_stamp (ordered_answer p result).answer ≡ order_stamp_singly p buffer.old }
    ensures count { order_count (ordered_answer p result).answer ≡ order_count_singly p word buffer.old }
{
    check_length(buffer)?;
    let mut row = [0; row::LENGTH];
    put_judged(&mut row, p)?;
    let RowOrdered { sent, frame } = steps::order(&mut row, word)?;
    air::write(buffer, 0, frame)?;
    let post = post_row::store(&row);
    Ok(Ordered { sent, post })
}

// The post hears a frame (6 to 12, 21, 24, 26, 28 to 30); its broadcast, if the order is taken, goes into the buffer.
pub fn hear(p: Post, bytes: &[u8], buffer: &mut [u8]) -> Result<Heard, Refusal>
    ensures value { heard_answer p result ≡ hear_singly p bytes.now buffer.old }
    ensures buffer { buffer.new ≡ hear_buffer p bytes.now buffer.old }
    ensures number { refused_with result ≡ hear_refusal_singly p bytes.now buffer.old }
    ensures count { hear_count (heard_answer p result).answer ≡ hear_count_singly p bytes.now buffer.old }
{
    check_length(buffer)?;
    let f = Frame::read(bytes)?;
    let mut row = [0; row::LENGTH];
    put_judged(&mut row, p)?;
    let RowHeard { hearing, frame } = steps::hear(&mut row, f)?;
    if let Some(passed_on) = frame {
        air::write(buffer, 0, passed_on)?;
    }
    let post = post_row::store(&row);
    Ok(Heard { hearing, post })
}

// The post sends a beacon (6, 12, 21), which goes into the buffer; the post stays as it is.
pub fn beacon(p: Post, buffer: &mut [u8]) -> Result<(), Refusal>
    ensures value { beacon_answer result ≡ beacon_singly p buffer.old }
    ensures buffer { buffer.new ≡ beacon_buffer p buffer.old }
    ensures number { refused_with result ≡ beacon_refusal_singly p buffer.old }
{
    check_length(buffer)?;
    let mut row = [0; row::LENGTH];
    put_judged(&mut row, p)?;
    air::write(buffer, 0, steps::beacon(&row)?)
}

// A buffer for one broadcast has a frame's length (6).
fn check_length(buffer: &[u8]) -> Result<(), Refusal>
    ensures { refused_with result ≡ cond (bad_length buffer.now) 6 0 }
{
    if buffer.len() != Post::FRAME_LENGTH {
        return Err(Refusal::BadLength);
    }
    Ok(())
}

// The record is put into the row, and judged there (12). The row is lent and the code stands in its callers: a row given back, or
// a record handed on, is a copy on a stack of a few KB.
#[inline(always)]
fn put_judged(row: &mut [u16; row::LENGTH], p: Post) -> Result<(), Refusal>
    ensures number { refused_with result ≡ record_refusal p }
    ensures row { IsOk result → Judged p row.new }
{
    post_row::load(row, p);
    judge::judge(row)
}
