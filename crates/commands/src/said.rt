// What a CSV file says, as a line of text.
ghost use Rattle.std.specs.Prelude.{◌≡◌};
ghost use Rattle.text.specs.Writing.{out, wrote, Wrote};
ghost use Rattle.csv_log.specs.Log.{log_in};
ghost use Rattle.csv_log.specs.Text.{in_turn};
ghost use Rattle.csv_log.specs.Writing.{records_in};
ghost use Rattle.commands.specs.Csv.{log_item_text, csv_read_text};

use csv_log::NUMBERS;
use printout::{put_bad, put_three};
use text::Writer;

// The log that a file says, or its first bad record: the position after it. Every one of them fits 2,054 bytes.
pub fn put_said(output: &mut [u8], file: &[u8]) -> usize
    ensures { out output.new result ≡ wrote (out output.old 0) (csv_read_text file.now) }
{
    let mut numbers = [0u16; NUMBERS];
    let mut said = Writer::new(output);
    match csv_log::read(file, &mut numbers) {
        Ok(orders) => {
            said.put_text(b"(log");
            put_threes(&mut said, &numbers[..3 * orders as usize]);
            said.put_text(b")\n");
        }
        Err(bad) => put_bad(&mut said, bad.which, u8::from(bad.refusal)),
    }
    said.at()
}

// ` (STAMP LANE WORD)` for every three numbers.
fn put_threes(output: &mut Writer<'_>, numbers: &[u16])
    ensures { Wrote output.old output.new (in_turn log_item_text (log_in (records_in numbers.now))) }
{
    let mut left = numbers;
    while let [stamp, lane, word, rest @ ..] = left {
        put_three(output, *stamp, *lane, *word);
        left = rest;
    }
}
