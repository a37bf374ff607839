// Delivery logs for the charging desk: a log as RFC 4180 text, written and read. The contracts cite specs/Writing.antt and
// specs/Reading.antt; those of private functions cite specs/Seen.antt besides.
#![tactic(auto)]

mod reading;
mod seen;
mod writing;

ghost use Rattle.std.specs.Prelude.{◌≡◌, ◌*◌, length, IfOk, MatchResult};
ghost use Rattle.refusal.specs.Numbers.{refusal_number, refused_with};
ghost use Rattle.csv_log.specs.Writing.{handed_text, csv_write_refusal, csv_write_answer, buffer_after};
ghost use Rattle.csv_log.specs.Reading.{bad_in, judged_file, log_read, csv_read_refusal, csv_read_answer, numbers_after, first_bad_answer};

pub use reading::BadRecord;
use reading::read_file;
use refusal::Refusal;

// An order of a log as the desk has it.
#[derive(Clone, Copy)]
pub struct LogItem {
    pub stamp: u32,
    pub lane: u32,
    pub word: u32,
}

// Bytes of the buffer that a log is written to: every log fits.
pub const BUFFER: usize = 2048;

// Numbers that a file is read into, three an order.
pub const NUMBERS: usize = 3 * cells::PLACES;

// The longest file that is read, in bytes.
pub const LONGEST_FILE: usize = 48000;

// Writes a log, three numbers an order, to the start of a buffer: 256 times the text's length, or the refusal 6, 31 or 32.
#[tactic(auto, using(crate::proofs::Laws::refusals), unfolding(crate::specs::Writing::csv_write_answer))]
pub fn drift_csv_write(numbers: &[u16], buffer: &mut [u8]) -> u32
    ensures value { result ≡ csv_write_answer numbers.now buffer.old }
    ensures bytes { buffer.new ≡ buffer_after numbers.now buffer.old }
{
    told(write(numbers, buffer))
}

// Reads a file into numbers, three an order: 256 times the number of orders, or the refusal 1, 6, 31 or 32.
#[tactic(auto, using(crate::proofs::Laws::refusals), unfolding(crate::specs::Reading::csv_read_answer))]
pub fn drift_csv_read(file: &[u8], numbers: &mut [u16]) -> u32
    ensures value { result ≡ csv_read_answer file.now numbers.old }
    ensures numbers { numbers.new ≡ numbers_after file.now numbers.old }
{
    told(read_into(file, numbers))
}

// Which record of a file is the first bad one: its refusal plus 256 times the record, or 0 where none is bad.
#[tactic(auto, using(crate::proofs::Laws::refusals), unfolding(crate::specs::Reading::first_bad_answer))]
pub fn drift_csv_first_bad(file: &[u8]) -> u32
    ensures { result ≡ first_bad_answer file.now }
{
    match read_file(file, &mut [0; NUMBERS]) {
        Ok(_) => 0,
        Err(bad) => u8::from(bad.refusal) as u32 + 256 * bad.which as u32,
    }
}

// 256 times a count, or a refusal.
fn told(outcome: Result<u16, Refusal>) -> u32
    ensures { MatchResult outcome (λ count. result ≡ 256 * count) (λ refusal. result ≡ refusal_number refusal) }
{
    match outcome {
        Ok(count) => 256 * count as u32,
        Err(refusal) => u8::from(refusal) as u32,
    }
}

// A log's text goes to the start of the buffer: its length.
#[tactic(auto, using(crate::proofs::Laws::refusals), unfolding(crate::specs::Writing::csv_write_refusal, crate::specs::Writing::buffer_after))]
pub fn write(numbers: &[u16], buffer: &mut [u8]) -> Result<u16, Refusal>
    ensures refusal { refused_with result ≡ csv_write_refusal numbers.now buffer.old }
    ensures length { IfOk result (λ n. n ≡ length (handed_text numbers.now)) }
    ensures bytes { buffer.new ≡ buffer_after numbers.now buffer.old }
{
    if buffer.len() != BUFFER {
        return Err(Refusal::BadLength);
    }
    writing::check(numbers)?;
    Ok(writing::put_log(buffer, numbers) as u16)
}

// Reads a file into numbers, three an order: how many orders, or the first bad record and the numbers as they were.
#[tactic(auto, unfolding(crate::specs::Reading::numbers_after))]
pub fn read(file: &[u8], numbers: &mut [u16; NUMBERS]) -> Result<u16, BadRecord>
    ensures value { bad_in result ≡ judged_file file.now }
    ensures numbers { numbers.new ≡ numbers_after file.now numbers.old }
{
    let mut found = [0; NUMBERS];
    let orders = read_file(file, &mut found)?;
    let n = 3 * orders as usize;
    numbers[..n].copy_from_slice(&found[..n]);
    Ok(orders)
}

// The same with numbers of any count, and the refusal alone.
#[tactic(auto, using(crate::proofs::Laws::refusals), unfolding(crate::specs::Reading::csv_read_refusal, crate::specs::Reading::numbers_after))]
fn read_into(file: &[u8], numbers: &mut [u16]) -> Result<u16, Refusal>
    ensures refusal { refused_with result ≡ csv_read_refusal file.now numbers.old }
    ensures orders { IfOk result (λ n. n ≡ length (log_read file.now)) }
    ensures numbers { numbers.new ≡ numbers_after file.now numbers.old }
{
    let Some(numbers) = numbers.as_mut_array::<NUMBERS>() else {
        // A file that is too long is refused before a wrong length.
        if file.len() > LONGEST_FILE {
            return Err(Refusal::TooLong);
        }
        return Err(Refusal::BadLength);
    };
    let orders = read(file, numbers)?;
    Ok(orders)
}
