// The posts of a state printed from their rows: Texts.antt of the crate `meaning`.
ghost use Rattle.std.specs.Prelude.{cond, [], ◌<◌};
ghost use Rattle.cells.specs.Sets.{has_lane};
ghost use Rattle.row.specs.Rows.{post_in};
ghost use Rattle.text.specs.Writing.{Wrote};
ghost use Rattle.state.specs.States.{row_of, yard_in};
ghost use Rattle.meaning.specs.Texts.{post_text, posts_text};

use crate::Cells;
use text::Writer;

// The posts, a line each in rising lane order.
pub(crate) fn put_posts(output: &mut Writer<'_>, state: &Cells)
    ensures { Wrote output.old output.new (posts_text (yard_in state.now) 8) }
{
    let present = state[state::PRESENT];
    // By number: a lane picks its bit of the set and its row.
    for lane in 0..8u16 {
        put_row(output, state, present, lane);
    }
}

// The line of the post of a lane, if there is one.
fn put_row(output: &mut Writer<'_>, state: &Cells, present: u16, lane: u16)
    requires { lane < 8 }
    ensures { Wrote output.old output.new (cond (has_lane present lane) (post_text lane (post_in (row_of state.now lane))) []) }
{
    if !cells::has(present, lane) {
        return;
    }
    let start = state::ROWS + row::LENGTH * (lane as usize);
    printout::put_post(output, lane, &state[start..start + row::LENGTH]);
}
