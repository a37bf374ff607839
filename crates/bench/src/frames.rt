// Frames read and written, by the functions that firmware calls.
use crate::answers::{put_cells, put_line};
use frame::Frame;
use text::Writer;

// The number that the bytes are refused by, or 0.
pub(crate) fn judges(bytes: &[u8], came: &mut Writer<'_>) {
    put_line(came, b"", u16::from(frame::drift_frame_check(bytes)));
}

// The same, and the 22 fields.
pub(crate) fn reads(bytes: &[u8], came: &mut Writer<'_>) {
    let mut fields = [0; Frame::FIELDS];
    let number = frame::drift_frame_read(bytes, &mut fields);
    put_line(came, b"", u16::from(number));
    put_cells(came, &fields);
}

// The frame that these bytes are, written into so many bytes of a buffer: the number, and those bytes.
pub(crate) fn writes(bytes: &[u8], length: usize, came: &mut Writer<'_>) {
    let mut fields = [0; Frame::FIELDS];
    frame::drift_frame_read(bytes, &mut fields);
    let mut buffer = [255; 2 * Frame::LENGTH];
    let Some(buffer) = buffer.get_mut(..length) else {
        return;
    };
    let number = frame::drift_frame_write(&fields, buffer);
    put_line(came, b"", u16::from(number));
    came.put_text(buffer);
}
