// What the commands beside the plain run of a script give. The contracts cite specs/Csv.antt.
#![tactic(auto)]

mod lane_log;
mod said;

ghost use Rattle.std.specs.Prelude.{◌≡◌};
ghost use Rattle.lines.specs.Lines.{judged};
ghost use Rattle.state.specs.States.{yard_in};
ghost use Rattle.commands.specs.Csv.{command_world, made_answer, csv_made, csv_buffer};

use frame::Frame;
use lines::BadLine;
use refusal::Refusal;
pub use said::put_said;

// Why there is no file: the refusal, and the script's line where it is the script's own, or 0.
#[derive(Clone, Copy)]
pub struct NotMade {
    pub line: u16,
    pub refusal: Refusal,
}

impl From<Refusal> for NotMade {
    ghost from_gives = { λ refusal no_file. no_file ≡ record { line = 0; refusal = refusal } };

    fn from(refusal: Refusal) -> NotMade {
        NotMade { line: 0, refusal }
    }
}

impl From<BadLine> for NotMade {
    ghost from_gives = { λ bad no_file. no_file ≡ record { line = bad.line; refusal = bad.refusal } };

    fn from(bad: BadLine) -> NotMade {
        NotMade {
            line: bad.line,
            refusal: bad.refusal,
        }
    }
}

// The log of a lane after a script, as a CSV file at the start of a buffer of 2,048 bytes: its length.
pub fn csv_of_lane(script: &[u8], lane: usize, buffer: &mut [u8]) -> Result<usize, NotMade>
    ensures value { made_answer result ≡ csv_made script.now lane buffer.old }
    ensures bytes { buffer.new ≡ csv_buffer script.now lane buffer.old }
{
    reader::judge(script)?;
    if lane > usize::from(Frame::LAST_LANE) {
        return Err(NotMade::from(Refusal::LaneOver7));
    }
    if buffer.len() != csv_log::BUFFER {
        return Err(NotMade::from(Refusal::BadLength));
    }
    let mut state = [0u16; state::LENGTH];
    run(script, &mut state);
    let length = lane_log::put_lane(&state, lane, buffer)?;
    Ok(length)
}

// The yard that a script leaves in the state, run on an air of its own.
fn run(script: &[u8], state: &mut [u16; state::LENGTH])
    requires { (judged script.now).number ≡ 0 }
    ensures { yard_in state.new ≡ (command_world script.now).yard }
{
    script::drift_script_state(script, &mut [0; air::LENGTH], state);
}
