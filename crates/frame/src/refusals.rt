// The refusals 7 to 11: of the fields before the entries, and of the entries in a frame or in its bytes.
ghost use Rattle.std.specs.Prelude.{◌≡◌, length};
ghost use Rattle.refusal.specs.Numbers.{refused_with};
ghost use Rattle.frame.specs.Layout.{frame_of};
ghost use Rattle.frame.specs.Parts.{start_of, start_refusal};
ghost use Rattle.frame.specs.Refusals.{bad_entry, bad_entries};

use crate::{Entry, Frame, Serial, Stamp, layout};
use refusal::Refusal;

// By the lowest of 7 to 10 that the fields before the entries meet. A struct for the six would be filled field by field at
// both calls, and be no plainer.
#[tactic(auto, unfolding(crate::specs::Parts::start_refusal))]
pub(crate) fn check_start(
    kind: u8,
    sender: u8,
    lane: u8,
    serial: Serial,
    stamp: Stamp,
    word: u16,
) -> Result<(), Refusal>
    ensures { refused_with result ≡ start_refusal (start_of kind sender lane serial.0 stamp.0 word) }
{
    match kind {
        Frame::ORDER => {
            if lane > Frame::LAST_LANE || serial.0 == 0 || serial.0 > Serial::LAST || stamp.0 == 0 {
                return Err(Refusal::BadOrder);
            }
        }
        Frame::BEACON => {
            if lane != 0 || serial.0 != 0 || stamp.0 != 0 || word != 0 {
                return Err(Refusal::BadBeacon);
            }
        }
        _ => return Err(Refusal::BadKind),
    }
    if sender > Frame::LAST_LANE {
        return Err(Refusal::BadSender);
    }
    Ok(())
}

// An entry's serial is at most 16, and at most 0 where its stamp is 0.
fn bad_entry(e: Entry) -> bool
    ensures { result ≡ bad_entry e }
{
    let most = if e.stamp.0 == 0 { 0 } else { Serial::LAST };
    e.serial.0 > most
}

// Whether refusal 11 meets an entry of a frame.
pub(crate) fn bad_entries(f: Frame) -> bool
    ensures { result ≡ bad_entries f }
{
    f.entries.iter().any(|&entry| bad_entry(entry))
}

// The same of the frame that 32 bytes lay out, judged where they lie.
pub(crate) fn bad_entries_in(bytes: &[u8; Frame::LENGTH]) -> bool
    ensures { result ≡ bad_entries (frame_of bytes.now) }
{
    (0..Frame::LANES).any(|lane| bad_entry(layout::entry_at(bytes, 8 + 3 * lane)))
}
