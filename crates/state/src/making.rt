// A fresh yard laid into the cells of a state. The contracts cite specs/Making.antt.
ghost use Rattle.std.specs.Prelude.{◌≡◌, length, replicate};
ghost use Rattle.post.specs.Record.{fresh_post};
ghost use Rattle.row.specs.Rows.{post_in, known_in};
ghost use Rattle.state.specs.Making.{FreshFront, FreshBelow, SameFront};

use crate::{LANES, LENGTH, PRESENT, ROWS, SOURCES};

// The lanes that have a post, the sources and the destinations, each a set of bits.
#[derive(Clone, Copy)]
pub(crate) struct Roles {
    pub(crate) present: u16,
    pub(crate) sources: u16,
    pub(crate) dests: u16,
}

impl Roles {
    // The cells before the rows: the sets of posts and of sources, and 0 in all others.
    pub(crate) fn lay_front(self, state: &mut [u16; LENGTH])
        ensures { FreshFront state.new self.present self.sources }
    {
        state[..ROWS].fill(0);
        state[PRESENT] = self.present;
        state[SOURCES] = self.sources;
    }

    // A fresh row for each lane.
    pub(crate) fn lay_rows(self, state: &mut [u16; LENGTH])
        ensures fresh_below { FreshBelow state.new self.present self.sources self.dests 8 }
        ensures front { SameFront state.old state.new }
    {
        // By place: of `chunks_exact_mut` a proof knows no more than the length that it leaves.
        for lane in 0..LANES {
            let start = ROWS + row::LENGTH * lane;
            self.lay_row(&mut state[start..start + row::LENGTH], lane as u16);
        }
    }

    // "A fresh post has clock 0, serial 0 and empty tables."
    fn lay_row(self, row: &mut [u16], lane: u16)
        requires { length row.old ≡ 543 }
        ensures row_after { post_in row.new ≡ fresh_post lane self.present self.sources self.dests }
        ensures known { known_in row.new ≡ replicate 8 0 }
    {
        row.fill(0);
        row[row::LANE] = lane;
        row[row::SOURCES] = self.sources;
        row[row::DESTS] = self.dests;
        row[row::POSTS] = self.present;
    }
}
