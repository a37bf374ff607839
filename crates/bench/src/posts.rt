// One post of a script run singly: its own steps, with the frames that the whole script leaves on the air.
use crate::answers::put_told;
use crate::cases::{Block, after};
use crate::yards::{LEFT, air_of, leave};
use frame::{Frame, Stamp};
use lines::Line;
use post::Post;
use refusal::Refusal;
use scan::byte_at;
use single::{Heard, Ordered};
use text::Writer;

// What each of the post's steps answers, and its buffer; then the post's line of the printout. By what is left and not by
// `split`: a line is read at its place in the script.
pub(crate) fn play(lane: usize, clock: usize, script: &[u8], came: &mut Writer<'_>) {
    let mut left = [0; LEFT];
    leave(script, air::LENGTH, &mut left);
    let mut post = begin(script, (lane % Frame::LANES) as u8, (clock % 65536) as u16);
    let mut rest = Block::first(script).below;
    while !rest.is_empty() {
        if lane_of(rest) == post.lane {
            let line = reader::read_line(script, script.len() - rest.len());
            let mut buffer = [0; Frame::LENGTH];
            put_told(came, step(&mut post, line, air_of(&left), &mut buffer));
            came.put_text(&buffer);
        }
        rest = Block::first(rest).below;
    }
    let mut row = [0; row::LENGTH];
    post_row::load(&mut row, post);
    printout::put_post(came, u16::from(post.lane), &row);
}

// The lane of a step's line: it stands after the first space, and b'0' is a multiple of 8.
fn lane_of(line: &[u8]) -> u8 {
    byte_at(after(line, b' '), 0) % Post::LANES
}

// The fresh post of a lane, with this clock.
fn begin(script: &[u8], lane: u8, clock: u16) -> Post {
    let mut post = match reader::read_line(script, 0) {
        Ok(
            Line::Yard {
                posts,
                sources,
                dests,
                ..
            },
        ) => single::fresh(lane, posts, sources, dests).unwrap_or(Post::new(0, 0, 0, 0)),
        _ => Post::new(lane, 0, 0, 0),
    };
    post.clock = Stamp(clock);
    post
}

// The answer told as one number: an order's or a hearing's, and 0 of any other line.
fn step(post: &mut Post, line: Result<Line, Refusal>, air: &[u8], buffer: &mut [u8]) -> u64 {
    match line {
        Ok(Line::Order { word, .. }) => {
            let answer = single::order(*post, word, buffer);
            if let Ok(Ordered { post: after, .. }) = answer {
                *post = after;
            }
            told::order_told(answer.map(|ordered| ordered.sent).map_err(u8::from))
        }
        Ok(Line::Hear { frame, .. }) => {
            let frame = air::stretch(air, air::FRAMES, frame as usize);
            let answer = single::hear(*post, frame, buffer);
            if let Ok(Heard { post: after, .. }) = answer {
                *post = after;
            }
            told::hear_told(answer.map(|heard| heard.hearing).map_err(u8::from))
        }
        _ => 0,
    }
}
