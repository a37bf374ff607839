// The judgement of a post's record in its row, refusal 12. A good row then knows what its log makes known, so that no later
// step looks at the whole log again. The contract of `judge` cites specs/Judgement.antt and specs/OnRows.antt, those of its
// parts specs/Parts.antt.
#![tactic(auto)]

mod log;
mod orders;

ghost use Rattle.std.specs.Prelude.{◌≡◌, ℕ, ◌≤◌, ltb, length, get_or};
ghost use Rattle.frame.specs.Lanes.{any_below};
ghost use Rattle.refusal.specs.Numbers.{refused_with};
ghost use Rattle.row.specs.Rows.{post_in, known_in, past_in};
ghost use Rattle.judge.specs.OnRows.{row_refusal, judged_known};
ghost use Rattle.judge.specs.Parts.{bad_numbers_in};

use cells::PLACES;
use frame::{Frame, Serial};
use refusal::Refusal;
use row::Numbers;

// Where the parts of a row stand.
const LAST: usize = row::LAST as usize;

const KNOWN: usize = row::KNOWN as usize;

const TABLE: usize = row::TABLE as usize;

const STAMPS: usize = row::STAMPS as usize;

const WORDS: usize = row::WORDS as usize;

const LOG: usize = row::LOG as usize;

// Orders that a lane may send.
const ORDERS: u16 = Serial::LAST as u16;

// Refuses a bad record, by 12.
pub fn judge(row: &mut [u16]) -> Result<(), Refusal>
    ensures value { refused_with result ≡ row_refusal row.old }
    ensures post { post_in row.new ≡ post_in row.old }
    ensures known { known_in row.new ≡ judged_known row.old }
    ensures past { past_in row.new ≡ past_in row.old }
{
    if row.len() < row::LENGTH {
        return Err(Refusal::BadRecord);
    }
    let cells = &*row;
    let last: &[u16; Frame::LANES] = cells[LAST..KNOWN].try_into().unwrap();
    let stamps: &[u16; PLACES] = cells[STAMPS..WORDS].try_into().unwrap();
    let words: &[u16; PLACES] = cells[WORDS..LOG].try_into().unwrap();
    let log: &[u16; PLACES] = cells[LOG..row::POSTS].try_into().unwrap();
    let numbers = row::read_numbers(cells);
    let logged = cells::smaller(numbers.logged, row::ORDERS);
    let numbers = bad_numbers(numbers, last);
    let orders = orders::bad_orders(last, stamps, words);
    if numbers | orders | log::bad_unused(log, logged) {
        return Err(Refusal::BadRecord);
    }
    let mut known = [0; Frame::LANES];
    if log::bad_used(last, log, logged, &mut known) {
        return Err(Refusal::BadRecord);
    }
    row[KNOWN..TABLE].copy_from_slice(&known);
    Ok(())
}

// A number outside its range, a role at a lane without a post, or an own serial other than the last taken from its lane.
fn bad_numbers(numbers: Numbers, last: &[u16; Frame::LANES]) -> bool
    ensures { result ≡ bad_numbers_in numbers last.now }
{
    let serial = numbers.serial.0;
    let own = row::get(last, numbers.lane as usize);
    (row::LANES <= numbers.lane)
        | (ORDERS < serial)
        | (row::ORDERS < numbers.logged)
        | bad_last(last)
        | cells::role_astray(numbers.posts, numbers.sources, numbers.dests)
        | (serial != own)
}

// A last serial over 16.
#[tactic(auto, using(frame::proofs::Laws::any_more), unfolding(frame::specs::Lanes::any_below))]
fn bad_last(last: &[u16; Frame::LANES]) -> bool
    ensures { result ≡ any_below (λ (i : ℕ). ltb 16 (get_or last.now i 0)) 8 }
{
    let mut bad = false;
    for &serial in last {
        bad |= ORDERS < serial;
    }
    bad
}
