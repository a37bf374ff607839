// A script's lines as they are read. specs/ defines the forms, how they are read, and refusals 1 to 5; the crate `reader` reads.
#![tactic(auto)]

ghost use Rattle.std.specs.Prelude.{◌≡◌};
ghost use Rattle.lines.specs.Line.{line_numbered, line_or_none};
ghost use Rattle.lines.specs.Lines.{number_of, next_of};

use refusal::Refusal;

// How far a yard line was read: its posts, sources and destinations so far as sets of eight bits, and whether its lanes
// rise and are at most 7. A flag, as in a `Scan`.
#[derive(Clone, Copy)]
pub struct YardScan {
    pub ok: bool,
    pub at: usize,
    pub posts: u8,
    pub sources: u8,
    pub dests: u8,
    pub rising: bool,
}

// A line as it was read, with the place of the line after it.
#[derive(Clone, Copy)]
pub enum Line {
    Yard {
        posts: u8,
        sources: u8,
        dests: u8,
        next: usize,
    },
    Order {
        lane: u8,
        word: u16,
        next: usize,
    },
    Hear {
        lane: u8,
        frame: u32,
        next: usize,
    },
    Beacon {
        lane: u8,
        next: usize,
    },
    Roll {
        next: usize,
    },
}

// The first refused line of a script, counted from 1, and why; line 0 where the script is too long.
#[derive(Clone, Copy)]
pub struct BadLine {
    pub line: u16,
    pub refusal: Refusal,
}

// The longest script, in bytes.
pub const LONGEST: usize = 48000;

// The number that a line is refused by, whatever number that is, or 0.
pub fn number_of(l: Result<Line, u8>) -> u8
    ensures { result ≡ number_of (line_numbered l) }
{
    match l {
        Ok(_) => 0,
        Err(number) => number,
    }
}

// The place of the line after a line; nothing is read after a refused one, whatever it is refused by.
pub fn next_of<E: Drop>(s: &[u8], l: Result<Line, E>) -> usize
    ensures { result ≡ next_of s.now (line_or_none l) }
{
    match l {
        Ok(
            Line::Yard { next, .. }
            | Line::Order { next, .. }
            | Line::Hear { next, .. }
            | Line::Beacon { next, .. }
            | Line::Roll { next },
        ) => next,
        Err(_) => s.len(),
    }
}
