// A post's record. The contract cites specs/Record.antt; the other definitions of a post's parts stand beside it.
#![tactic(auto)]

ghost use Rattle.std.specs.Prelude.{◌≡◌};
ghost use Rattle.post.specs.Record.{fresh_post};

use cells::{PLACES, TABLE};
use frame::{Frame, Serial, Stamp};

// A post: its lane, the yard's posts and roles as sets of eight bits, its logical clock and own serial; for each lane
// the last serial taken; the newest-stamp table, 8 lanes by 17 serials; the orders taken, stamp and word at place
// 16 × lane + serial − 1; the log, as places, and its length. Hosts lend it: laid out as in C, 928 bytes without a gap.
#[repr(C)]
#[derive(Clone, Copy)]
pub struct Post {
    pub lane: u8,
    pub posts: u8,
    pub sources: u8,
    pub dests: u8,
    pub clock: Stamp,
    pub serial: Serial,
    pub logged: u8,
    pub last: [u8; Frame::LANES],
    pub table: [u16; TABLE],
    pub stamps: [u16; PLACES],
    pub words: [u16; PLACES],
    pub log: [u8; PLACES],
}

impl Post {
    pub const LANES: u8 = Frame::LANES as u8;

    pub const SERIALS: u8 = Serial::COUNT;

    pub const PLACES: u8 = PLACES as u8;

    pub const CLOCK_LIMIT: u16 = 65535;

    pub const FRAME_LENGTH: usize = Frame::LENGTH;

    // A fresh post by lane and roles, not judged: `single::fresh` judges.
    pub fn new(lane: u8, posts: u8, sources: u8, dests: u8) -> Self
        ensures { result ≡ fresh_post lane posts sources dests }
    {
        Post {
            lane,
            posts,
            sources,
            dests,
            clock: Stamp(0),
            serial: Serial(0),
            logged: 0,
            last: [0; Frame::LANES],
            table: [0; TABLE],
            stamps: [0; PLACES],
            words: [0; PLACES],
            log: [0; PLACES],
        }
    }
}
