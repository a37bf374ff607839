// A line of each form with its refusals 2 to 5: Lines.antt of the crate `lines`.
ghost use Rattle.std.specs.Prelude.{◌≡◌, cond, ◌<◌};
ghost use Rattle.refusal.specs.Numbers.{refusal_number, refused_with};
ghost use Rattle.lines.specs.Forms.{order_form, hear_form, beacon_form, roll_form, read_form};
ghost use Rattle.lines.specs.Line.{line_answer, Refused};
ghost use Rattle.lines.specs.Lines.{step_line_refusal, order_line, hear_line, beacon_line, roll_line, yard_or};

use crate::forms::{read_beacon, read_roll, read_two, read_yard};
use frame::Frame;
use lines::Line;
use refusal::Refusal;

const LAST_LANE: u32 = Frame::LAST_LANE as u32;

// Refusals 2 to 5 of a step's line, read as one of the forms or not.
fn check_step(of_form: bool, at: usize, lane: u32, word: u32) -> Result<(), Refusal>
    ensures { refused_with result ≡ cond of_form (step_line_refusal at lane word) 2 }
{
    if !of_form {
        return Err(Refusal::NoForm);
    }
    if at == 0 {
        return Err(Refusal::NoYard);
    }
    if lane > LAST_LANE {
        return Err(Refusal::LaneOver7);
    }
    if word > 65535 {
        return Err(Refusal::WordTooLarge);
    }
    Ok(())
}

// An order, or its refusal. Each form makes another line of its numbers, so the four stay apart.
pub(crate) fn read_order_line(s: &[u8], at: usize) -> Result<Line, Refusal>
    ensures { line_answer result ≡ cond (read_form s.now order_form at).ok (order_line at (read_form s.now order_form at)) (Refused 2) }
{
    let c = read_two(s, b"(order ", at);
    check_step(c.ok, at, c.earlier, c.latest)?;
    Ok(Line::Order {
        lane: c.earlier as u8,
        word: c.latest as u16,
        next: c.at,
    })
}

// A hear step, or its refusal.
pub(crate) fn read_hear_line(s: &[u8], at: usize) -> Result<Line, Refusal>
    ensures { line_answer result ≡ cond (read_form s.now hear_form at).ok (hear_line at (read_form s.now hear_form at)) (Refused 2) }
{
    let c = read_two(s, b"(hear ", at);
    check_step(c.ok, at, c.earlier, 0)?;
    Ok(Line::Hear {
        lane: c.earlier as u8,
        frame: c.latest,
        next: c.at,
    })
}

// A beacon step, or its refusal.
pub(crate) fn read_beacon_line(s: &[u8], at: usize) -> Result<Line, Refusal>
    ensures { line_answer result ≡ cond (read_form s.now beacon_form at).ok (beacon_line at (read_form s.now beacon_form at)) (Refused 2) }
{
    let c = read_beacon(s, at);
    check_step(c.ok, at, c.latest, 0)?;
    Ok(Line::Beacon {
        lane: c.latest as u8,
        next: c.at,
    })
}

// A roll call, or its refusal.
pub(crate) fn read_roll_line(s: &[u8], at: usize) -> Result<Line, Refusal>
    ensures { line_answer result ≡ cond (read_form s.now roll_form at).ok (roll_line at (read_form s.now roll_form at)) (Refused 2) }
{
    let c = read_roll(s, at);
    check_step(c.ok, at, 0, 0)?;
    Ok(Line::Roll { next: c.at })
}

// A yard, or its refusal. The yard form is read in two places, which keeps the compiled code for a step's line short.
pub(crate) fn read_yard_line(s: &[u8], at: usize) -> Result<Line, Refusal>
    ensures { line_answer result ≡ yard_or s.now at }
{
    if at == 0 {
        first_yard(s)
    } else {
        Err(later_yard(s, at))
    }
}

// The yard form on line 1.
fn first_yard(s: &[u8]) -> Result<Line, Refusal>
    ensures { line_answer result ≡ yard_or s.now 0 }
{
    let y = read_yard(s, 0);
    if !y.ok {
        return Err(Refusal::NoForm);
    }
    if !y.rising || y.posts == 0 {
        return Err(Refusal::NoYard);
    }
    Ok(Line::Yard {
        posts: y.posts,
        sources: y.sources,
        dests: y.dests,
        next: y.at,
    })
}

// The yard form on a later line is refused.
fn later_yard(s: &[u8], at: usize) -> Refusal
    requires { 0 < at }
    ensures { Refused (refusal_number result) ≡ yard_or s.now at }
{
    if read_yard(s, at).ok {
        Refusal::NoYard
    } else {
        Refusal::NoForm
    }
}
