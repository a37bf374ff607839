// The bytes of a frame taken apart into its fields, and its fields laid out as bytes.
ghost use Rattle.std.specs.Prelude.{◌≡◌, ◌+◌, ◌*◌, ◌<◌, length};
ghost use Rattle.frame.specs.Layout.{pair_at, entry_at, frame_of, bytes_of};

use crate::{Entry, Frame, Serial, Stamp};
use std::array;

// The frame that 32 bytes lay out.
pub(crate) fn frame_of(bytes: &[u8; Frame::LENGTH]) -> Frame
    ensures { result ≡ frame_of bytes.now }
{
    Frame {
        kind: bytes[0],
        sender: bytes[1],
        lane: bytes[2],
        serial: Serial(bytes[3]),
        stamp: Stamp(pair_at(bytes, 4)),
        word: pair_at(bytes, 6),
        entries: array::from_fn(|lane| entry_at(bytes, 8 + 3 * lane)),
    }
}

// Puts the bytes that a frame lays out into a buffer of 32.
pub(crate) fn put(f: Frame, buffer: &mut [u8; Frame::LENGTH])
    ensures { buffer.new ≡ bytes_of f }
{
    buffer[0] = f.kind;
    buffer[1] = f.sender;
    buffer[2] = f.lane;
    buffer[3] = f.serial.0;
    [buffer[4], buffer[5]] = f.stamp.0.to_be_bytes();
    [buffer[6], buffer[7]] = f.word.to_be_bytes();
    for (lane, entry) in f.entries.iter().enumerate() {
        let place = 8 + 3 * lane;
        buffer[place] = entry.serial.0;
        [buffer[place + 1], buffer[place + 2]] = entry.stamp.0.to_be_bytes();
    }
}

pub(crate) fn pair_at(bytes: &[u8], i: usize) -> u16
    requires { i + 1 < length bytes.now }
    ensures { result ≡ pair_at bytes.now i }
{
    u16::from_be_bytes([bytes[i], bytes[i + 1]])
}

pub(crate) fn entry_at(bytes: &[u8], i: usize) -> Entry
    requires { i + 2 < length bytes.now }
    ensures { result ≡ entry_at bytes.now i }
{
    Entry {
        serial: Serial(bytes[i]),
        stamp: Stamp(pair_at(bytes, i + 1)),
    }
}
