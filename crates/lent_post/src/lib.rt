// A post's record lent by the host, who finds it brought up to date; for C and Rust. Each function takes the record out, has
// the step by value run on it, and stores the post that the step leaves: a refusal leaves record and buffer as they were.
// The contracts cite `single`'s specs/Single.antt, and `told`'s specs/Told.antt for the answer as one number.
#![tactic(auto)]

ghost use Rattle.std.specs.Prelude.{◌≡◌};
ghost use Rattle.single.specs.Single.{fresh_refusal, order_singly, order_buffer, hear_singly, hear_buffer, beacon_refusal_singly, beacon_buffer};
ghost use Rattle.told.specs.Told.{order_told, hear_told};
ghost use Rattle.lent_post.specs.Lent.{fresh_kept};

use post::Post;

// Makes the record a fresh post by lane and roles: 0, or the refusal (12, 21) with the record as it was. Numbers here and below, for C.
// Here and below the post goes from the result straight into the record: each stop on the way is a copy on a stack of a few KB.
pub fn drift_post_fresh(p: &mut Post, lane: u8, posts: u8, sources: u8, dests: u8) -> u8
    ensures { (result ≡ fresh_refusal lane posts sources dests) × (p.new ≡ fresh_kept p.old lane posts sources dests) }
{
    match single::fresh(lane, posts, sources, dests) {
        Ok(post) => {
            *p = post;
            0
        }
        Err(refusal) => u8::from(refusal),
    }
}

// The post sends an order (6, 12, 21 to 24); its broadcast goes into the buffer.
pub fn drift_post_order(p: &mut Post, word: u16, buffer: &mut [u8]) -> u64
    ensures { (result ≡ order_told (order_singly p.old word buffer.old).answer)
        × ((p.new ≡ (order_singly p.old word buffer.old).post)
        × (buffer.new ≡ order_buffer p.old word buffer.old)) }
{
    match single::order(*p, word, buffer) {
        Ok(ordered) => {
            *p = ordered.post;
            told::order_told(Ok(ordered.sent))
        }
        Err(refusal) => told::order_told(Err(u8::from(refusal))),
    }
}

// The post hears a frame (6 to 12, 21, 24, 26, 28 to 30); its broadcast, if the order is taken, goes into the buffer.
pub fn drift_post_hear(p: &mut Post, frame: &[u8], buffer: &mut [u8]) -> u64
    ensures { (result ≡ hear_told (hear_singly p.old frame.now buffer.old).answer)
        × ((p.new ≡ (hear_singly p.old frame.now buffer.old).post)
        × (buffer.new ≡ hear_buffer p.old frame.now buffer.old)) }
{
    match single::hear(*p, frame, buffer) {
        Ok(heard) => {
            *p = heard.post;
            told::hear_told(Ok(heard.hearing))
        }
        Err(refusal) => told::hear_told(Err(u8::from(refusal))),
    }
}

// The post sends a beacon (6, 12, 21), which goes into the buffer; the record stays as it is.
pub fn drift_post_beacon(p: &Post, buffer: &mut [u8]) -> u8
    ensures { (result ≡ beacon_refusal_singly p.now buffer.old) × (buffer.new ≡ beacon_buffer p.now buffer.old) }
{
    refusal::number_of(single::beacon(*p, buffer))
}
