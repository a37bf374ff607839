// A frame as 22 numbers: kind, sender, lane, serial, stamp, word, and for each lane serial and stamp.
ghost use Rattle.std.specs.Prelude.{◌≡◌};
ghost use Rattle.frame.specs.Fields.{fields_of, byte_of, frame_from};

use crate::{Entry, Frame, Serial, Stamp};
use std::array;

// Puts a frame's fields into 22 numbers.
pub(crate) fn put(f: Frame, fields: &mut [u16; Frame::FIELDS])
    ensures { fields.new ≡ fields_of f }
{
    fields[0] = u16::from(f.kind);
    fields[1] = u16::from(f.sender);
    fields[2] = u16::from(f.lane);
    fields[3] = u16::from(f.serial.0);
    fields[4] = f.stamp.0;
    fields[5] = f.word;
    for (lane, entry) in f.entries.iter().enumerate() {
        let place = 6 + 2 * lane;
        fields[place] = u16::from(entry.serial.0);
        fields[place + 1] = entry.stamp.0;
    }
}

// The frame that 22 numbers make.
pub(crate) fn frame_from(fields: &[u16; Frame::FIELDS]) -> Frame
    ensures { result ≡ frame_from fields.now }
{
    Frame {
        kind: byte_of(fields[0]),
        sender: byte_of(fields[1]),
        lane: byte_of(fields[2]),
        serial: Serial(byte_of(fields[3])),
        stamp: Stamp(fields[4]),
        word: fields[5],
        entries: array::from_fn(|lane| Entry {
            serial: Serial(byte_of(fields[6 + 2 * lane])),
            stamp: Stamp(fields[6 + 2 * lane + 1]),
        }),
    }
}

// A number over 255 counts as 255, which every refusal of a field of one byte meets.
fn byte_of(number: u16) -> u8
    ensures { result ≡ byte_of number }
{
    number.min(255) as u8
}
