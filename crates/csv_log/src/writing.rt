// A log that is handed in as numbers: its refusal and its text. specs/Log.antt, specs/Text.antt.
ghost use Rattle.std.specs.Prelude.{◌≡◌, []};
ghost use Rattle.text.specs.Writing.{out, wrote, Wrote};
ghost use Rattle.refusal.specs.Numbers.{refused_with};
ghost use Rattle.csv_log.specs.Log.{log_item, log_in, first_bad};
ghost use Rattle.csv_log.specs.Text.{record_text, records_text};
ghost use Rattle.csv_log.specs.Writing.{records_in, handed_text};

use crate::LogItem;
use crate::seen::Seen;
use refusal::Refusal;
use text::Writer;

// Whether no record is bad, or the refusal of the first that is.
pub(crate) fn check(numbers: &[u16]) -> Result<(), Refusal>
    ensures { refused_with result ≡ (first_bad [] (records_in numbers.now)).number }
{
    let mut seen = Seen::new();
    let mut left = numbers;
    while let [stamp, lane, word, rest @ ..] = left {
        seen.see(LogItem {
            stamp: *stamp as u32,
            lane: *lane as u32,
            word: *word as u32,
        })?;
        left = rest;
    }
    // One or two numbers that are left over are no record.
    if left.is_empty() {
        Ok(())
    } else {
        Err(Refusal::BadFields)
    }
}

// The text of a log from the buffer's start on: its length.
#[tactic(auto, using(text::proofs::Laws::wrote_append), unfolding(crate::specs::Text::log_text))]
pub(crate) fn put_log(buffer: &mut [u8], numbers: &[u16]) -> usize
    ensures { out buffer.new result ≡ wrote (out buffer.old 0) (handed_text numbers.now) }
{
    let mut file = Writer::new(buffer);
    file.put_text(b"stamp,lane,word\r\n");
    put_records(&mut file, numbers);
    file.at()
}

// A record for every three numbers.
fn put_records(file: &mut Writer<'_>, numbers: &[u16])
    ensures { Wrote file.old file.new (records_text (log_in (records_in numbers.now))) }
{
    let mut left = numbers;
    while let [stamp, lane, word, rest @ ..] = left {
        put_record(file, *stamp, *lane, *word);
        left = rest;
    }
}

// `STAMP,LANE,WORD` and CR LF.
#[tactic(auto, using(text::proofs::Laws::wrote_append), unfolding(crate::specs::Text::record_text))]
fn put_record(file: &mut Writer<'_>, stamp: u16, lane: u16, word: u16)
    ensures { Wrote file.old file.new (record_text (log_item stamp lane word)) }
{
    file.put_number(stamp);
    file.put_byte(b',');
    file.put_number(lane);
    file.put_byte(b',');
    file.put_number(word);
    file.put_text(b"\r\n");
}
