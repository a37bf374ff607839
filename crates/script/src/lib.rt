// Runs a script over a fresh yard and the air lent for it: printed into the output lent for it, or left in the state lent for it.
// The contracts cite specs/Run.antt and specs/State.antt; meaning/specs/Script.antt says what a script prints.
#![tactic(auto)]

mod line_steps;
mod posts;

ghost use Rattle.std.specs.Prelude.{◌≡◌, ◌≤◌, length};
ghost use Rattle.text.specs.Writing.{out, wrote, Wrote};
ghost use Rattle.lines.specs.Lines.{judged};
ghost use Rattle.state.specs.States.{held_in};
ghost use Rattle.yard.specs.InState.{here_in};
ghost use Rattle.meaning.specs.Script.{step_lines, script_world, script_text};
ghost use Rattle.script.specs.Run.{bytes_printed, output_after, air_left};
ghost use Rattle.script.specs.Told.{no_step};
ghost use Rattle.script.specs.State.{state_told, state_held, state_air};
ghost use Rattle.script.specs.OnState.{rest, here_after, refused_in, last_in, script_here};

use text::Writer;

// The lanes that have a post, the sources and the destinations among them.
#[derive(Clone, Copy)]
pub(crate) struct Sets {
    pub present: u8,
    pub sources: u8,
    pub dests: u8,
}

// Bytes of the output: every printout fits.
pub const OUTPUT: usize = 131072;

// The cells of a state, whose number has been judged.
type Cells = [u16; state::LENGTH];

// What a state holds before a fresh yard is laid into every cell of it. A number of two equal bytes would cost a call of memset.
const UNWRITTEN: u16 = 1;

// Runs a script: the number of bytes printed, or 0 where the output has not 131,072 bytes and all stays as it was. An air
// of another length than 65,536 bytes is what the steps meet (13).
pub fn drift_run_script(script: &[u8], air: &mut [u8], output: &mut [u8]) -> usize
    ensures value { result ≡ bytes_printed script.now air.old output.old }
    ensures printed { output.new ≡ output_after script.now air.old output.old }
    ensures bytes { air.new ≡ air_left script.now air.old output.old }
{
    if output.len() != OUTPUT {
        return 0;
    }
    if let Err(bad) = reader::judge(script) {
        let mut printed = Writer::new(output);
        printout::put_bad(&mut printed, bad.line, u8::from(bad.refusal));
        return printed.at();
    }
    let mut state = [UNWRITTEN; state::LENGTH];
    print_good(script, &mut state, air, output)
}

// Runs a script and leaves its yard in the state: the answer of its last line as one number. A state that has not 4,483
// cells, or a script that is refused by 1 to 5, is told, and all stays as it was.
pub fn drift_script_state(script: &[u8], air: &mut [u8], state: &mut [u16]) -> u64
    ensures value { result ≡ state_told script.now air.old state.old }
    ensures held { held_in state.new ≡ state_held script.now air.old state.old }
    ensures bytes { air.new ≡ state_air script.now air.old state.old }
{
    let Some(state) = state.as_mut_array::<{ state::LENGTH }>() else {
        return told::told(12, 10, 0, 0, 0, 0);
    };
    if let Err(bad) = reader::judge(script) {
        return told::told(u8::from(bad.refusal), 9, 0, 0, 0, bad.line);
    }
    run_good(script, state, air, &mut Writer::new(&mut []))
}

// Runs a script that is not refused, then prints the posts.
fn print_good(script: &[u8], state: &mut Cells, air: &mut [u8], output: &mut [u8]) -> usize
    requires { (judged script.now).number ≡ 0 }
    ensures result_after { out output.new result ≡ wrote (out output.old 0) (script_text script.now air.old) }
    ensures bytes { air.new ≡ (script_world script.now air.old).air }
{
    let mut printed = Writer::new(output);
    run_good(script, state, air, &mut printed);
    posts::put_posts(&mut printed, state);
    printed.at()
}

// Runs a script that is not refused: line 1 makes the yard, the lines after it are its steps; each refused one is printed.
fn run_good(script: &[u8], state: &mut Cells, air: &mut [u8], output: &mut Writer<'_>) -> u64
    requires { (judged script.now).number ≡ 0 }
    ensures air_after { here_in state.new air.new ≡ here_after (script_here script.now air.old) (step_lines script.now) }
    ensures printed { Wrote output.old output.new (refused_in (script_here script.now air.old) 1 (step_lines script.now)) }
    ensures answer { result ≡ last_in (script_here script.now air.old) no_step (step_lines script.now) }
{
    let first_line = reader::read_line(script, 0);
    let s = line_steps::sets_of(first_line);
    // An accepted line 1 is not refused here.
    let _ = state::fresh(state, s.present, s.sources, s.dests);
    let from = lines::next_of(script, first_line);
    run_lines(script, state, air, output, from)
}

// The steps of the lines from a place on, line 2 being the first; each refused one is printed.
fn run_lines(
    script: &[u8],
    state: &mut [u16],
    air: &mut [u8],
    output: &mut Writer<'_>,
    from: usize,
) -> u64
    requires { (length script.now ≤ 48000) × (1 ≤ from) }
    ensures air_after { here_in state.new air.new ≡ here_after (here_in state.old air.old) (rest script.now from) }
    ensures printed { Wrote output.old output.new (refused_in (here_in state.old air.old) 1 (rest script.now from)) }
    ensures answer { result ≡ last_in (here_in state.old air.old) no_step (rest script.now from) }
{
    let mut at = from;
    let mut line = 1u16;
    let mut answer = told::told(0, 7, 0, 0, 0, 0);
    // Where a line begins, the one before it tells.
    while at < script.len() {
        let l = reader::read_line(script, at);
        answer = line_steps::run_step(state, air, l);
        line += 1;
        line_steps::put_refusal(output, line, (answer % 256) as u8);
        at = lines::next_of(script, l);
    }
    answer
}
