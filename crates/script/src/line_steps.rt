// One line's step on the state and the air: specs/OnState.antt.
ghost use Rattle.std.specs.Prelude.{◌≡◌, not, ◌%◌, eqb};
ghost use Rattle.text.specs.Decimal.{given};
ghost use Rattle.text.specs.Writing.{Wrote};
ghost use Rattle.yard.specs.InState.{here_in};
ghost use Rattle.lines.specs.Line.{line_answer};
ghost use Rattle.roll.specs.RollAnswer.{roll_answer};
ghost use Rattle.roll.specs.Answers.{roll_number};
ghost use Rattle.meaning.specs.Texts.{refused_text};
ghost use Rattle.meaning.specs.Script.{step_of};
ghost use Rattle.script.specs.Told.{roll_told, no_step};
ghost use Rattle.script.specs.OnState.{run_in, refusal_in, told_in, sets_of};

use crate::Sets;
use lines::Line;
use refusal::Refusal;
use text::Writer;

// The sets of lanes that line 1 asks for.
pub(crate) fn sets_of(l: Result<Line, Refusal>) -> Sets
    ensures { result ≡ sets_of (line_answer l) }
{
    let Ok(
        Line::Yard {
            posts,
            sources,
            dests,
            ..
        },
    ) = l
    else {
        return Sets {
            present: 0,
            sources: 0,
            dests: 0,
        };
    };
    Sets {
        present: posts,
        sources,
        dests,
    }
}

// The step that a line asks for: its answer as one number, whose lowest eight bits are the refusal's number.
#[tactic(auto, unfolding(crate::specs::OnState::run_in))]
pub(crate) fn run_step(state: &mut [u16], air: &mut [u8], l: Result<Line, Refusal>) -> u64
    ensures value { result ≡ told_in (here_in state.old air.old) (step_of (line_answer l)) }
    ensures number { result % 256 ≡ refusal_in (here_in state.old air.old) (step_of (line_answer l)) }
    ensures here { here_in state.new air.new ≡ run_in (here_in state.old air.old) (step_of (line_answer l)) }
{
    let Ok(line) = l else {
        return no_step();
    };
    match line {
        Line::Yard { .. } => no_step(),
        Line::Order { lane, word, .. } => {
            let answer = yard::order(state, air, lane as usize, word as usize);
            told::order_told(answer.map_err(u8::from))
        }
        Line::Hear { lane, frame, .. } => {
            let answer = yard::hear(state, air, lane as usize, frame as usize);
            told::hear_told(answer.map_err(u8::from))
        }
        Line::Beacon { lane, .. } => {
            let answer = yard::beacon(state, air, lane as usize);
            told::beacon_told(answer.map_err(u8::from))
        }
        Line::Roll { .. } => roll_told(roll::call(state, air)),
    }
}

fn no_step() -> u64
    ensures value { result ≡ no_step }
    ensures number { result % 256 ≡ 0 }
{
    told::told(0, 7, 0, 0, 0, 0)
}

fn roll_told(answer: Result<u32, Refusal>) -> u64
    ensures value { result ≡ roll_told (roll_answer answer) }
    ensures number { result % 256 ≡ roll_number (roll_answer answer) }
{
    match answer {
        Ok(steps) => told::told(0, 8, 0, 0, 0, (steps % 65536) as u16),
        Err(refusal) => told::told(u8::from(refusal), 0, 0, 0, 0, 0),
    }
}

// `(refused LINE NUMBER)` where the number is not 0.
#[tactic(auto, unfolding(text::specs::Writing::wrote))]
pub(crate) fn put_refusal(output: &mut Writer<'_>, line: u16, number: u8)
    ensures { Wrote output.old output.new (given (not (eqb number 0)) (refused_text line number)) }
{
    if number != 0 {
        printout::put_refused(output, line, number);
    }
}
