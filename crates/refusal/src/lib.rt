// Why something is refused, by documents 01 and 02. The contracts cite specs/Numbers.antt.
#![tactic(auto)]

ghost use Rattle.std.specs.Prelude.{◌≡◌};
ghost use Rattle.refusal.specs.Numbers.{refusal_number, refused_with};

// Each refusal has its document's number.
#[derive(Clone, Copy, PartialEq, Eq, Debug)]
pub enum Refusal {
    // The script, or the CSV file.
    TooLong = 1,
    // The line has none of the forms.
    NoForm = 2,
    // Line 1 makes no yard, or a later line does.
    NoYard = 3,
    LaneOver7 = 4,
    WordTooLarge = 5,
    // The frame, or a lent buffer.
    BadLength = 6,
    BadKind = 7,
    BadBeacon = 8,
    BadOrder = 9,
    BadSender = 10,
    BadEntry = 11,
    // A post's record, or a state.
    BadRecord = 12,
    BadAir = 13,
    NotInYard = 21,
    NoSource = 22,
    SerialsSpent = 23,
    ClockSpent = 24,
    NotOnAir = 25,
    OwnBroadcast = 26,
    BeaconsSpent = 27,
    // A sender, order or entry of another yard.
    Strange = 28,
    // An order's stamp is not above that lane's last one.
    NotAbove = 29,
    // More is claimed of the hearing post than it has done.
    BeyondOwn = 30,
    // A CSV record that is not three decimal fields.
    BadFields = 31,
    // A CSV record that does not rise, or is one too many.
    NotRising = 32,
}

impl From<Refusal> for u8 {
    ghost from_gives = { λ refusal number. number ≡ refusal_number refusal };

    fn from(refusal: Refusal) -> u8 {
        refusal as u8
    }
}

// The number that something was refused by, or 0.
pub fn number_of<T: Drop>(outcome: Result<T, Refusal>) -> u8
    ensures { result ≡ refused_with outcome }
{
    match outcome {
        Ok(_) => 0,
        Err(refusal) => u8::from(refusal),
    }
}
