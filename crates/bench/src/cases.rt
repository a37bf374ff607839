// The case file: its blocks, the words and numbers of a heading, and the text that the lines below it stand for.
ghost use Rattle.std.specs.Prelude.{◌-◌, ◌≤◌, length};

use scan::{byte_at, read_number, start_at};
use text::Writer;

// What stands after the next such byte; nothing where there is none. Less is left, where anything was left.
pub(crate) fn after(text: &[u8], byte: u8) -> &[u8]
    ensures { length result.now ≤ length text.now - 1 }
{
    match text.iter().position(|b| *b == byte) {
        Some(k) => &text[k + 1..],
        None => &[],
    }
}

// A heading, which runs on to the end of the text, and what stands below its line.
#[derive(Clone, Copy)]
pub(crate) struct Block<'a> {
    pub(crate) heading: &'a [u8],
    pub(crate) below: &'a [u8],
}

impl<'a> Block<'a> {
    // The block of a text's first line. Less is left below it, where anything was left.
    pub(crate) fn first(text: &'a [u8]) -> Block<'a>
        ensures { length result.below.now ≤ length text.now - 1 }
    {
        Block {
            heading: text,
            below: after(text, b'\n'),
        }
    }

    // The text of the lines below, as far as they are such lines: the part of the buffer that it fills.
    pub(crate) fn put_text(self, buffer: &mut [u8]) -> &[u8] {
        let mut text = Writer::new(buffer);
        for line in self.below.split_inclusive(|b| *b == b'\n') {
            let c = read_number(line, start_at(0));
            let times = if c.ok { c.latest } else { 1 };
            let line = line.get(c.at..).unwrap_or(&[]);
            if !matches!(line, [b'|' | b'+' | b'~' | b'x', ..]) {
                break;
            }
            for _ in 0..times {
                put_line(&mut text, line);
            }
        }
        let n = text.at();
        buffer.get(..n).unwrap_or(&[])
    }
}

// The number that a text begins with, if it does.
pub(crate) fn number_of(text: &[u8]) -> Option<usize> {
    let c = read_number(text, start_at(0));
    if c.ok { Some(c.latest as usize) } else { None }
}

// `|TEXT` is a line of text, `+TEXT` text without a line feed, `~ WORD WORD` lines that end in CR LF, `x HH HH` bytes in
// hexadecimal. `+` and `~` leave out the line's last byte, which is its line feed, if it has one.
fn put_line(given: &mut Writer<'_>, line: &[u8]) {
    match line {
        [b'|', text @ ..] => given.put_text(text),
        [b'+', text @ .., _] => given.put_text(text),
        [b'~', ..] => {
            for word in line.split_inclusive(|b| *b == b' ').skip(1) {
                if let [text @ .., _] = word {
                    given.put_text(text);
                }
                given.put_text(b"\r\n");
            }
        }
        [b'x', ..] => put_bytes(given, line),
        _ => {}
    }
}

// The two digits after each space are a byte.
fn put_bytes(given: &mut Writer<'_>, line: &[u8]) {
    let mut rest = after(line, b' ');
    while !rest.is_empty() {
        given.put_byte(digit(byte_at(rest, 0)) * 16 + digit(byte_at(rest, 1)));
        rest = after(rest, b' ');
    }
}

// The value of a hexadecimal digit.
fn digit(byte: u8) -> u8
    ensures { result ≤ 15 }
{
    (byte % 16 + byte / 64 * 9) % 16
}
