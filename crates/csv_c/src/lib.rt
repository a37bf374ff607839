// The logs of `csv_log` for hosts in C and Rust, by the names of c/drift_csv.h: each export calls the function of its name.
#![tactic(auto)]

ghost use Rattle.std.specs.Prelude.{◌≡◌};
ghost use Rattle.csv_log.specs.Writing.{csv_write_answer, buffer_after};
ghost use Rattle.csv_log.specs.Reading.{csv_read_answer, numbers_after, first_bad_answer};

// Writes a log, three numbers an order, to the start of a buffer: 256 times the text's length, or the refusal 6, 31 or 32.
#[unsafe(no_mangle)]
pub extern "C" fn drift_csv_write(numbers: &[u16], buffer: &mut [u8]) -> u32
    ensures value { result ≡ csv_write_answer numbers.now buffer.old }
    ensures bytes { buffer.new ≡ buffer_after numbers.now buffer.old }
{
    csv_log::drift_csv_write(numbers, buffer)
}

// Reads a file into numbers, three an order: 256 times the number of orders, or the refusal 1, 6, 31 or 32.
#[unsafe(no_mangle)]
pub extern "C" fn drift_csv_read(file: &[u8], numbers: &mut [u16]) -> u32
    ensures value { result ≡ csv_read_answer file.now numbers.old }
    ensures numbers { numbers.new ≡ numbers_after file.now numbers.old }
{
    csv_log::drift_csv_read(file, numbers)
}

// Which record of a file is the first bad one: its refusal plus 256 times the record, or 0 where none is bad.
#[unsafe(no_mangle)]
pub extern "C" fn drift_csv_first_bad(file: &[u8]) -> u32
    ensures { result ≡ first_bad_answer file.now }
{
    csv_log::drift_csv_first_bad(file)
}
