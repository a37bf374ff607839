// Scripts run in a yard, by the two functions that a host calls.
use crate::answers::{put_cells, put_told};
use crate::cases::Block;
use text::Writer;

// Bytes of the longest air, and of all that a script leaves: the air, and two for each cell of the state.
const AIR: usize = air::LENGTH + 1;

pub(crate) const LEFT: usize = AIR + 2 * state::LENGTH;

// Where the number of frames stands after a whole air, and the last serials that the post of lane 0 took.
const FRAMES: usize = air::LENGTH + 2 * state::FRAMES;

const LAST: usize = air::LENGTH + 2 * (state::ROWS + row::LAST as usize);

// What a script leaves, of an air of so many zeros: the air, then the cells of the state, as far as they fit. Its last
// answer.
pub(crate) fn leave(script: &[u8], bytes: usize, left: &mut [u8; LEFT]) -> u64 {
    let mut state = [0; state::LENGTH];
    let Some(air) = left.get_mut(..bytes) else {
        return 0;
    };
    let told = script::drift_script_state(script, air, &mut state);
    put_cells(&mut Writer::starting_at(left, bytes), &state);
    told
}

// The air at its front, a whole one.
pub(crate) fn air_of(left: &[u8; LEFT]) -> &[u8] {
    &left[..air::LENGTH]
}

// What a script prints over an air of so many zeros: how many bytes. A script that is refused leaves them as they were.
pub(crate) fn prints(script: &[u8], bytes: usize, output: &mut [u8]) -> usize {
    let mut air = [0; AIR];
    let Some(lent) = air.get_mut(..bytes) else {
        return 0;
    };
    let n = script::drift_run_script(script, lent, output);
    let refused = output.starts_with(b"(bad ");
    let mut printed = Writer::starting_at(output, n);
    if refused && air != [0; AIR] {
        printed.put_text(b"changed\n");
    }
    printed.at()
}

// A frame.
pub(crate) fn frame(script: &[u8], k: usize, came: &mut Writer<'_>) {
    let mut left = [0; LEFT];
    leave(script, air::LENGTH, &mut left);
    came.put_text(air::stretch(air_of(&left), air::FRAMES, k));
}

// How many frames are on the air.
pub(crate) fn number(script: &[u8], came: &mut Writer<'_>) {
    let mut left = [0; LEFT];
    leave(script, air::LENGTH, &mut left);
    came.put_text(&left[FRAMES..FRAMES + 2]);
}

// The last serials that a post took.
pub(crate) fn taken(script: &[u8], post: usize, came: &mut Writer<'_>) {
    let mut left = [0; LEFT];
    leave(script, air::LENGTH, &mut left);
    let start = LAST + 2 * row::LENGTH * (post % state::LANES);
    came.put_text(&left[start..start + 2 * state::LANES]);
}

// The other script where both leave the same yard and the same air, else nothing.
pub(crate) fn equals(script: &[u8], other: &[u8], bytes: usize, came: &mut Writer<'_>) {
    let mut left = [0; LEFT];
    leave(script, bytes, &mut left);
    if leaves(other, bytes, &left) {
        came.put_text(other);
    }
}

// Whether a script leaves this yard and this air.
fn leaves(script: &[u8], bytes: usize, left: &[u8; LEFT]) -> bool {
    let mut right = [0; LEFT];
    leave(script, bytes, &mut right);
    right == *left
}

// What each step answers, or the last one alone. By what is left and not by `split`: a step needs the script up to its
// line.
pub(crate) fn answers(script: &[u8], bytes: usize, every: bool, came: &mut Writer<'_>) {
    let mut rest = Block::first(script).below;
    while !rest.is_empty() {
        let below = Block::first(rest).below;
        if every || below.is_empty() {
            let before = &script[..script.len() - rest.len()];
            let through = &script[..script.len() - below.len()];
            put_answer(came, before, through, bytes);
        }
        rest = below;
    }
}

// What the last step of a script answers. A refused one leaves yard and air as the script before it does.
fn put_answer(came: &mut Writer<'_>, before: &[u8], script: &[u8], bytes: usize) {
    let mut left = [0; LEFT];
    let told = leave(script, bytes, &mut left);
    put_told(came, told);
    if told % 256 != 0 && !leaves(before, bytes, &left) {
        came.put_text(b"changed\n");
    }
}
