// The forms of a script's lines: Forms.antt of the crate `lines`.
ghost use Rattle.std.specs.Prelude.{◌≡◌, cond, ◌==◌, ◌&&◌, ◌||◌, [], ◌∷◌, length};
ghost use Rattle.text.specs.Bytes.{bytes};
ghost use Rattle.scan.specs.Scan.{stands, failed};
ghost use Rattle.lines.specs.Forms.{text, number, beacon_form, roll_form, read_form, or_role, read_role, read_post, bit_of, post_added, posts_read, no_posts, scan_of, ended, yard_posts, read_yard};

use lines::YardScan;
use scan::{Scan, byte_at, fail, read_number, read_text, stands_at, start_at};

// A post's role. A scan holds its number.
#[derive(Clone, Copy)]
enum Role {
    Relay = 0,
    Source = 1,
    Dest = 2,
    Both = 3,
}

// `(order LANE WORD)`, `(hear LANE FRAME)`: what opens it, and two numbers.
pub(crate) fn read_two(s: &[u8], opening: &[u8], at: usize) -> Scan
    ensures { result ≡ read_form s.now (text opening.now ∷ number ∷ text (bytes " ") ∷ number ∷ text (bytes ")\n") ∷ []) at }
{
    let n = read_text(s, opening, start_at(at));
    let n = read_number(s, n);
    let n = read_text(s, b" ", n);
    let n = read_number(s, n);
    read_text(s, b")\n", n)
}

// `(beacon LANE)`
pub(crate) fn read_beacon(s: &[u8], at: usize) -> Scan
    ensures { result ≡ read_form s.now beacon_form at }
{
    let n = read_text(s, b"(beacon ", start_at(at));
    let n = read_number(s, n);
    read_text(s, b")\n", n)
}

// `(roll)`
pub(crate) fn read_roll(s: &[u8], at: usize) -> Scan
    ensures { result ≡ read_form s.now roll_form at }
{
    read_text(s, b"(roll)\n", start_at(at))
}

// `(yard (LANE ROLE) ..)`
pub(crate) fn read_yard(s: &[u8], at: usize) -> YardScan
    ensures { result ≡ read_yard s.now at }
{
    let y = yard_posts(s, at);
    end_yard(y, read_text(s, b")\n", scan_of(y)))
}

fn yard_posts(s: &[u8], at: usize) -> YardScan
    ensures { result ≡ yard_posts s.now at }
{
    let c = read_text(s, b"(yard", start_at(at));
    read_posts(s, no_posts(c))
}

// The posts from there on, as long as one begins.
fn read_posts(s: &[u8], y: YardScan) -> YardScan
    ensures { result ≡ posts_read s.now y (length s.now) }
{
    let mut z = y;
    while post_begins(s, z) {
        z = post_added(z, read_post(s, z.at));
    }
    z
}

// Whether a post more begins.
fn post_begins(s: &[u8], y: YardScan) -> bool
    ensures { result ≡ (y.ok && stands s.now y.at (bytes " (")) }
{
    y.ok && stands_at(s, y.at, b" (")
}

// ` (LANE ROLE)`
fn read_post(s: &[u8], at: usize) -> Scan
    ensures { result ≡ read_post s.now at }
{
    let n = read_text(s, b" (", start_at(at));
    let n = read_number(s, n);
    let n = read_text(s, b" ", n);
    let n = read_role(s, n);
    read_text(s, b")", n)
}

// A role, read as its number.
fn read_role(s: &[u8], c: Scan) -> Scan
    ensures { result ≡ read_role s.now c }
{
    match byte_at(s, c.at) {
        b's' => named_role(s, b"source", Role::Source as u32, c),
        b'd' => named_role(s, b"dest", Role::Dest as u32, c),
        b'b' => named_role(s, b"both", Role::Both as u32, c),
        b'r' => named_role(s, b"relay", Role::Relay as u32, c),
        _ => fail(c),
    }
}

// The role of this name, and no other.
fn named_role(s: &[u8], name: &[u8], role: u32, c: Scan) -> Scan
    ensures { result ≡ or_role s.now name.now role c (failed c) }
{
    let r = read_text(s, name, c);
    if r.ok {
        Scan {
            earlier: c.latest,
            latest: role,
            ..r
        }
    } else {
        fail(c)
    }
}

// A lane's bit in a set of eight; none for a lane over 7.
fn bit_of(lane: u32) -> u8
    ensures { result ≡ bit_of lane }
{
    1u8.checked_shl(lane).unwrap_or(0)
}

// The lane's bit where its post has a role or both of them; none elsewhere.
fn role_bit(c: Scan, role: u32) -> u8
    ensures { result ≡ cond (c.latest == role || c.latest == 3) (bit_of c.earlier) 0 }
{
    if c.latest == role || c.latest == Role::Both as u32 {
        bit_of(c.earlier)
    } else {
        0
    }
}

// A post more: its lane is at most 7 and above those before it just when its bit is above their set.
fn post_added(y: YardScan, c: Scan) -> YardScan
    ensures { result ≡ post_added y c }
{
    let bit = bit_of(c.earlier);
    YardScan {
        ok: c.ok,
        at: c.at,
        posts: y.posts | bit,
        sources: y.sources | role_bit(c, Role::Source as u32),
        dests: y.dests | role_bit(c, Role::Dest as u32),
        rising: y.rising && y.posts < bit,
    }
}

fn no_posts(c: Scan) -> YardScan
    ensures { result ≡ no_posts c }
{
    YardScan {
        ok: c.ok,
        at: c.at,
        posts: 0,
        sources: 0,
        dests: 0,
        rising: true,
    }
}

fn scan_of(y: YardScan) -> Scan
    ensures { result ≡ scan_of y }
{
    Scan {
        ok: y.ok,
        ..start_at(y.at)
    }
}

fn end_yard(y: YardScan, c: Scan) -> YardScan
    ensures { result ≡ ended y c }
{
    YardScan {
        ok: c.ok,
        at: c.at,
        ..y
    }
}
