// Reads a script line by line, and judges it by refusals 1 to 5. The contracts cite the definitions of the crate `lines`:
// Lines.antt and Values.antt, and for the private parts Forms.antt besides.
#![tactic(auto)]

mod forms;
mod line_forms;

ghost use Rattle.std.specs.Prelude.{◌≡◌, ◌+◌, ◌≤◌, length, get_or};
ghost use Rattle.lines.specs.Judged.{judged_answer};
ghost use Rattle.lines.specs.Line.{line_answer};
ghost use Rattle.lines.specs.Lines.{line_at, lines_of, judged_lines, judged};
ghost use Rattle.lines.specs.Values.{values_of, values_at};

use lines::{BadLine, Line};
use refusal::Refusal;

// The line that begins at a place: the letter after its `(` says which form it can have.
pub fn read_line(s: &[u8], at: usize) -> Result<Line, Refusal>
    ensures value { line_answer result ≡ line_at s.now at }
    ensures values { values_of (line_answer result) ≡ values_at s.now at }
{
    match byte_after(s, at) {
        b'o' => line_forms::read_order_line(s, at),
        b'h' => line_forms::read_hear_line(s, at),
        b'b' => line_forms::read_beacon_line(s, at),
        b'r' => line_forms::read_roll_line(s, at),
        b'y' => line_forms::read_yard_line(s, at),
        _ => Err(Refusal::NoForm),
    }
}

// What stands after a place, and 0 past the end.
fn byte_after(s: &[u8], at: usize) -> u8
    ensures { result ≡ get_or s.now (at + 1) 0 }
{
    scan::byte_at(s, at.saturating_add(1))
}

// Refusals 1 to 5: how many lines the script has, or the first refused line.
pub fn judge(s: &[u8]) -> Result<u16, BadLine>
    ensures { judged_answer result ≡ judged s.now }
{
    if s.len() > lines::LONGEST {
        return Err(BadLine {
            line: 0,
            refusal: Refusal::TooLong,
        });
    }
    if s.is_empty() {
        return Err(BadLine {
            line: 1,
            refusal: Refusal::NoYard,
        });
    }
    judge_lines(s)
}

fn judge_lines(s: &[u8]) -> Result<u16, BadLine>
    requires { length s.now ≤ 48000 }
    ensures { judged_answer result ≡ judged_lines 0 (lines_of s.now) }
{
    let mut at = 0;
    let mut line = 0;
    // Where a line begins, the one before it tells.
    while at < s.len() {
        line += 1;
        let l = read_line(s, at);
        if let Err(refusal) = l {
            return Err(BadLine { line, refusal });
        }
        at = lines::next_of(s, l);
    }
    Ok(line)
}
