// The frame of document 01, "Frames and the air": 32 bytes, big-endian, judged by 6 to 11, read and written.
// The contracts cite specs/Layout.antt, specs/Refusals.antt, specs/ReadWrite.antt and specs/Fields.antt.
#![tactic(auto)]

mod fields;
mod layout;
mod refusals;

ghost use Rattle.std.specs.Prelude.{◌≡◌, IfOk, IsOk};
ghost use Rattle.refusal.specs.Numbers.{refused_with};
ghost use Rattle.frame.specs.FrameRead.{read_answer};
ghost use Rattle.frame.specs.Layout.{bytes_of, no_frame};
ghost use Rattle.frame.specs.Refusals.{frame_refusal, read_refusal};
ghost use Rattle.frame.specs.ReadWrite.{write_refusal, read_of, written};
ghost use Rattle.frame.specs.Fields.{fields_read_refusal, fields_read, fields_write_refusal, fields_written};

use refusal::Refusal;

// A count of one lane's own orders (a per-source sequence number), 1 to 16; entries also have 0.
#[repr(C)]
#[derive(Clone, Copy, Debug, PartialEq, Eq, PartialOrd, Ord)]
pub struct Serial(pub u8);

impl Serial {
    pub const LAST: u8 = 16;

    pub const COUNT: u8 = Serial::LAST + 1;
}

// A reading of a source's logical clock (a Lamport timestamp); 0 means none.
#[repr(C)]
#[derive(Clone, Copy, Debug, PartialEq, Eq, PartialOrd, Ord)]
pub struct Stamp(pub u16);

// A lane's newest stamp and the serial that it stands under, as a broadcast carries them; all zero is none.
#[derive(Clone, Copy, Debug, PartialEq, Eq)]
pub struct Entry {
    pub serial: Serial,
    pub stamp: Stamp,
}

// A broadcast: an order frame (a flooded message) or a beacon (entries alone), with an entry for each lane. Its kind is a number,
// since the writer refuses a bad one by 7.
#[derive(Clone, Copy, Debug, PartialEq, Eq)]
pub struct Frame {
    pub kind: u8,
    pub sender: u8,
    pub lane: u8,
    pub serial: Serial,
    pub stamp: Stamp,
    pub word: u16,
    pub entries: [Entry; Frame::LANES],
}

impl Frame {
    pub const LENGTH: usize = 32;

    pub const FIELDS: usize = 22;

    pub const LANES: usize = 8;

    pub const LAST_LANE: u8 = (Frame::LANES as u8) - 1;

    pub const ORDER: u8 = 1;

    pub const BEACON: u8 = 2;

    // No frame: 0 in every field. Nothing here calls it any more; its contract stands.
    pub fn none() -> Self
        ensures { result ≡ no_frame }
    {
        let none = Entry {
            serial: Serial(0),
            stamp: Stamp(0),
        };
        Frame {
            kind: 0,
            sender: 0,
            lane: 0,
            serial: Serial(0),
            stamp: Stamp(0),
            word: 0,
            entries: [none; Frame::LANES],
        }
    }

    // The frame that these bytes lay out, or the refusal 6 to 11.
    pub fn read(bytes: &[u8]) -> Result<Frame, Refusal>
        ensures value { read_answer result ≡ read_of bytes.now }
        ensures writes_back { IfOk result (λ f. bytes_of f ≡ bytes.now) }
    {
        let bytes = checked(bytes)?;
        Ok(layout::frame_of(bytes))
    }

    // Puts the frame's bytes into a buffer of 32; a refusal, 6 to 11, leaves the buffer as it was.
    pub fn write(self, buffer: &mut [u8]) -> Result<(), Refusal>
        ensures number { refused_with result ≡ write_refusal buffer.old self }
        ensures bytes { buffer.new ≡ written buffer.old self }
        ensures reads_back { IsOk result → read_of buffer.new ≡ record { refusal = 0; frame = self } }
    {
        let Some(buffer) = buffer.as_mut_array() else {
            return Err(Refusal::BadLength);
        };
        self.check()?;
        layout::put(self, buffer);
        Ok(())
    }

    // By the lowest of 7 to 11 that the frame meets.
    pub fn check(self) -> Result<(), Refusal>
        ensures { refused_with result ≡ frame_refusal self }
    {
        refusals::check_start(
            self.kind,
            self.sender,
            self.lane,
            self.serial,
            self.stamp,
            self.word,
        )?;
        if refusals::bad_entries(self) {
            return Err(Refusal::BadEntry);
        }
        Ok(())
    }
}

// The number that the radio firmware gets for a received frame: 0, or 6 to 11. A number here and in the next two, for C.
pub fn drift_frame_check(bytes: &[u8]) -> u8
    ensures { result ≡ read_refusal bytes.now }
{
    refusal::number_of(checked(bytes))
}

// Puts a received frame's 22 fields into the lent numbers: 0, or the refusal 6 to 11 with the numbers as they were.
pub fn drift_frame_read(bytes: &[u8], fields: &mut [u16]) -> u8
    ensures number { result ≡ fields_read_refusal bytes.now fields.old }
    ensures fields { fields.new ≡ fields_read bytes.now fields.old }
{
    let Some(fields) = fields.as_mut_array() else {
        return u8::from(Refusal::BadLength);
    };
    match Frame::read(bytes) {
        Ok(frame) => {
            fields::put(frame, fields);
            0
        }
        Err(refusal) => u8::from(refusal),
    }
}

// Puts the bytes of the frame that 22 fields make into a buffer of 32: 0, or the refusal 6 to 11 with the buffer as it was.
pub fn drift_frame_write(fields: &[u16], buffer: &mut [u8]) -> u8
    ensures number { result ≡ fields_write_refusal fields.now buffer.old }
    ensures bytes { buffer.new ≡ fields_written fields.now buffer.old }
{
    let Some(fields) = fields.as_array() else {
        return u8::from(Refusal::BadLength);
    };
    refusal::number_of(fields::frame_from(fields).write(buffer))
}

// The bytes of a frame, judged where they lie: refused by the lowest of 6 to 11 that they meet.
fn checked(bytes: &[u8]) -> Result<&[u8; Frame::LENGTH], Refusal>
    ensures number { refused_with result ≡ read_refusal bytes.now }
    ensures same { IfOk result (λ b. b.now ≡ bytes.now) }
{
    let Some(bytes) = bytes.as_array() else {
        return Err(Refusal::BadLength);
    };
    let stamp = Stamp(layout::pair_at(bytes, 4));
    let word = layout::pair_at(bytes, 6);
    refusals::check_start(bytes[0], bytes[1], bytes[2], Serial(bytes[3]), stamp, word)?;
    if refusals::bad_entries_in(bytes) {
        return Err(Refusal::BadEntry);
    }
    Ok(bytes)
}
