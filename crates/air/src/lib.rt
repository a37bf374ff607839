// The air of document 01, "Frames and the air": 65,536 lent bytes, in which frame k fills bytes 32×k to 32×k+31. So does a
// frame that is written into other lent bytes, as a buffer for one broadcast.
// The contracts cite specs/Air.antt and specs/Stretch.antt.
#![tactic(auto)]

ghost use Rattle.std.specs.Prelude.{◌≡◌};
ghost use Rattle.refusal.specs.Numbers.{refused_with};
ghost use Rattle.air.specs.Air.{place_refusal, frames_with};
ghost use Rattle.air.specs.Stretch.{stretch_refusal, stretch_of};

use frame::Frame;
use refusal::Refusal;

pub const LENGTH: usize = 65536;

pub const FRAMES: usize = 2048;

// What is said of frame k where `frames` were broadcast: 13 or 25.
pub fn check(air: &[u8], frames: usize, k: usize) -> Result<(), Refusal>
    ensures { refused_with result ≡ stretch_refusal air.now frames k }
{
    if air.len() != LENGTH {
        return Err(Refusal::BadAir);
    }
    if k >= frames || k >= FRAMES {
        return Err(Refusal::NotOnAir);
    }
    Ok(())
}

// The stretch of the air that frame k fills, or an empty one where `check` refuses.
pub fn stretch(air: &[u8], frames: usize, k: usize) -> &[u8]
    ensures { result.now ≡ stretch_of air.now frames k }
{
    match check(air, frames, k) {
        Ok(()) => {
            let start = Frame::LENGTH * k;
            &air[start..start + Frame::LENGTH]
        }
        Err(_) => &air[..0],
    }
}

// Writes f as frame k of lent bytes, the air or a buffer; a refusal, 6 to 11, leaves the bytes as they were.
pub fn write(bytes: &mut [u8], k: usize, f: Frame) -> Result<(), Refusal>
    ensures number { refused_with result ≡ place_refusal bytes.old k f }
    ensures bytes { bytes.new ≡ frames_with bytes.old k f }
{
    if k >= bytes.len() / Frame::LENGTH {
        return Err(Refusal::BadLength);
    }
    let place = Frame::LENGTH * k;
    f.write(&mut bytes[place..place + Frame::LENGTH])
}
