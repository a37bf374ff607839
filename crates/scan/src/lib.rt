// Reads a text from a place on: what stands there, and numerals. A scan that fails stays where it is, and a byte past the end
// is 0, so nothing owes a bound. The contracts cite specs/Scan.antt.
#![tactic(auto)]

ghost use Rattle.std.specs.Option.{unwrap_or};
ghost use Rattle.std.specs.Prelude.{◌≡◌, true, ◌<◌, length, get_or, IfSome};
ghost use Rattle.scan.specs.Scan.{stands, digit_at, start_at, failed, read_text, first_digit, next_digit, read_number};

// How far a text was read: whether all was of the form so far, the place reached, and the last two numbers read. A flag and no
// `Option`, since the clauses of `read_text` and the others say where a failed scan stays.
#[derive(Clone, Copy)]
pub struct Scan {
    pub ok: bool,
    pub at: usize,
    pub earlier: u32,
    pub latest: u32,
}

// A text is read from a place on.
pub fn start_at(at: usize) -> Scan
    ensures { result ≡ start_at at }
{
    Scan {
        ok: true,
        at,
        earlier: 0,
        latest: 0,
    }
}

// What stands at a place, and 0 past the end.
pub fn byte_at(s: &[u8], at: usize) -> u8
    ensures { result ≡ get_or s.now at 0 }
{
    s.get(at).copied().unwrap_or(0)
}

// Whether a text stands at a place.
pub fn stands_at(s: &[u8], at: usize, t: &[u8]) -> bool
    ensures { result ≡ stands s.now at t.now }
{
    match s.get(at..) {
        Some(rest) => rest.starts_with(t),
        None => false,
    }
}

// The scan that fails stays where it is.
pub fn fail(c: Scan) -> Scan
    ensures { result ≡ failed c }
{
    Scan { ok: false, ..c }
}

// A text comes next.
pub fn read_text(s: &[u8], t: &[u8], c: Scan) -> Scan
    ensures { result ≡ read_text s.now t.now c }
{
    if c.ok && stands_at(s, c.at, t) {
        Scan {
            at: c.at + t.len(),
            ..c
        }
    } else {
        fail(c)
    }
}

// The digit at a place, if one stands there.
fn digit_at(s: &[u8], at: usize) -> Option<u32>
    ensures value { unwrap_or result 10 ≡ digit_at s.now at }
    ensures within { IfSome result (λ digit. (at < length s.now) × (digit < 10)) }
{
    let x = byte_at(s, at);
    if x.is_ascii_digit() {
        Some(u32::from(x - b'0'))
    } else {
        None
    }
}

// A number comes next: its first digit.
fn first_digit(s: &[u8], c: Scan) -> Scan
    ensures { result ≡ first_digit s.now c }
{
    match digit_at(s, c.at) {
        Some(digit) if c.ok => Scan {
            at: c.at + 1,
            earlier: c.latest,
            latest: digit,
            ..c
        },
        _ => fail(c),
    }
}

// The digits after the first: no more than four.
fn more_digits(s: &[u8], c: Scan) -> Scan
    requires ok { c.ok ≡ true }
    requires above { 0 < c.latest }
    requires below { c.latest < 10 }
    ensures { result ≡ next_digit s.now (next_digit s.now (next_digit s.now (next_digit s.now c))) }
{
    let mut n = c;
    for _ in 0..4u8 {
        let Some(digit) = digit_at(s, n.at) else {
            break;
        };
        n.at += 1;
        n.latest = 10 * n.latest + digit;
    }
    n
}

// A number of one to five digits; one that starts with 0 has no digit more.
pub fn read_number(s: &[u8], c: Scan) -> Scan
    ensures { result ≡ read_number s.now c }
{
    let n = first_digit(s, c);
    if n.ok && n.latest > 0 {
        more_digits(s, n)
    } else {
        n
    }
}
