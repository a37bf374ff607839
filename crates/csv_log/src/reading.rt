// A file's header and records, and the log that they say: specs/Reading.antt.
ghost use Rattle.std.specs.Prelude.{◌≡◌, [], length, IfOk, OnOk};
ghost use Rattle.std.proofs.lemmas.List.Edits.{sets};
ghost use Rattle.refusal.specs.Numbers.{refused_with};
ghost use Rattle.csv_log.specs.Log.{log_in, item_numbers, first_bad};
ghost use Rattle.csv_log.specs.Reading.{bad_in, record_at, after_record, records_from, judged_file, log_read};
ghost use Rattle.csv_log.specs.Seen.{cells_of, refusal_by, seen_after, item_found, record_refusal_by, record_seen, record_found};

use crate::seen::Seen;
use crate::{LONGEST_FILE, LogItem, NUMBERS};
use fields::{read_end, read_field, read_header};
use refusal::Refusal;
use scan::{read_text, start_at};

// The first bad record, the header being record 1, or record 0 of a file that is too long.
#[derive(Clone, Copy)]
pub struct BadRecord {
    pub which: u16,
    pub refusal: Refusal,
}

impl From<BadRecord> for Refusal {
    ghost from_gives = { λ bad refusal. refusal ≡ bad.refusal };

    fn from(bad: BadRecord) -> Refusal {
        bad.refusal
    }
}

// Stamp, lane and word.
const FIELDS: u8 = 3;

// How many orders a file has, whose numbers are found, or its first bad record.
#[tactic(auto, using(crate::proofs::Laws::refusals), unfolding(crate::specs::Reading::judged_file))]
pub(crate) fn read_file(file: &[u8], found: &mut [u16; NUMBERS]) -> Result<u16, BadRecord>
    ensures value { bad_in result ≡ judged_file file.now }
    ensures found { OnOk result (found.new ≡ sets found.old 0 (item_numbers (log_read file.now))) }
{
    if file.len() > LONGEST_FILE {
        return Err(BadRecord {
            which: 0,
            refusal: Refusal::TooLong,
        });
    }
    let header = read_header(file);
    if !header.ok {
        return Err(BadRecord {
            which: 1,
            refusal: Refusal::BadFields,
        });
    }
    read_records(file, header.at, found)
}

// The records from a place on, up to the first bad one.
fn read_records(file: &[u8], from: usize, found: &mut [u16; NUMBERS]) -> Result<u16, BadRecord>
    ensures value { bad_in result ≡ first_bad [] (records_from file.now from (length file.now)) }
    ensures found { OnOk result (found.new ≡ sets found.old 0 (item_numbers (log_in (records_from file.now from (length file.now))))) }
{
    let mut seen = Seen::new();
    let mut at = from;
    // Where a record begins, the one before it tells.
    while at < file.len() {
        match take_record(file, at, &mut seen, found) {
            Ok(next) => at = next,
            Err(refusal) => {
                return Err(BadRecord {
                    which: seen.orders + 2,
                    refusal,
                });
            }
        }
    }
    Ok(seen.orders)
}

// The record that begins at a place, judged after those seen; the numbers of a good one join those found. Answers where the
// next one begins. `read_field` is called at one place, so the compiler puts it there and no scan goes through memory.
fn take_record(
    file: &[u8],
    at: usize,
    seen: &mut Seen,
    found: &mut [u16; NUMBERS],
) -> Result<usize, Refusal>
    ensures value { refused_with result ≡ record_refusal_by (cells_of seen.old) (record_at file.now at) }
    ensures next { IfOk result (λ next. next ≡ after_record file.now at) }
    ensures seen { cells_of seen.new ≡ record_seen (cells_of seen.old) (record_at file.now at) }
    ensures found { found.new ≡ record_found (cells_of seen.old) found.old (record_at file.now at) }
{
    let mut c = start_at(at);
    let mut stamp = 0u32;
    for k in 0..FIELDS {
        // A scan keeps two numbers, so at the last field the earlier one is the stamp.
        stamp = c.earlier;
        if k > 0 {
            c = read_text(file, b",", c);
        }
        if !c.ok {
            return Err(Refusal::BadFields);
        }
        c = read_field(file, c);
    }
    let c = read_end(file, c);
    if !c.ok {
        return Err(Refusal::BadFields);
    }
    let x = LogItem {
        stamp,
        lane: c.earlier,
        word: c.latest,
    };
    join(seen, found, x)?;
    Ok(c.at)
}

// An order judged after those seen; the numbers of a good one join those found.
#[tactic(auto, using(crate::proofs::Laws::joined_range), unfolding(crate::specs::Seen::item_found, crate::specs::Seen::found_with))]
fn join(seen: &mut Seen, found: &mut [u16; NUMBERS], x: LogItem) -> Result<(), Refusal>
    ensures value { refused_with result ≡ refusal_by (cells_of seen.old) x }
    ensures seen { cells_of seen.new ≡ seen_after (cells_of seen.old) x }
    ensures found { found.new ≡ item_found (cells_of seen.old) found.old x }
{
    let i = 3 * seen.orders as usize;
    seen.see(x)?;
    found[i] = x.stamp as u16;
    found[i + 1] = x.lane as u16;
    found[i + 2] = x.word as u16;
    Ok(())
}
