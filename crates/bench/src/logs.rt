// Logs of the charging desk written and read, by the functions that a host calls.
use crate::answers::put_line;
use crate::cases::number_of;
use text::Writer;

// As many numbers as a case hands in or lends at most: some more than a log has.
const MOST: usize = csv_log::NUMBERS + 16;

// As many bytes as a case lends at most: more than a log needs.
const BYTES: usize = 2 * csv_log::BUFFER;

// The log that the numbers of a text are, written into so many bytes of a buffer: the answer, and those bytes.
pub(crate) fn composes(text: &[u8], bytes: usize, came: &mut Writer<'_>) {
    let mut numbers = [0; MOST];
    let numbers = take_numbers(text, &mut numbers);
    let mut buffer = [255; BYTES];
    let Some(buffer) = buffer.get_mut(..bytes) else {
        return;
    };
    let answer = csv_log::drift_csv_write(numbers, buffer);
    put_answered(came, answer, b"written ");
    came.put_text(buffer);
}

// A file read into so many numbers: the answer, the first bad record, and those numbers.
pub(crate) fn imports(file: &[u8], many: usize, came: &mut Writer<'_>) {
    let mut numbers = [65535; MOST];
    let Some(numbers) = numbers.get_mut(..many) else {
        return;
    };
    let answer = csv_log::drift_csv_read(file, numbers);
    put_answered(came, answer, b"orders ");
    let [bad, record, record_high, _] = csv_log::drift_csv_first_bad(file).to_le_bytes();
    came.put_labelled(b"bad ", u16::from(bad));
    put_line(came, b" at ", u16::from_le_bytes([record, record_high]));
    put_numbers(came, numbers);
}

// An answer in one number: the refusal, or what is told where there is none, after a word for it.
fn put_answered(came: &mut Writer<'_>, answer: u32, word: &[u8]) {
    let [refusal, told, told_high, _] = answer.to_le_bytes();
    if refusal != 0 {
        put_line(came, b"refused ", u16::from(refusal));
    } else {
        put_line(came, word, u16::from_le_bytes([told, told_high]));
    }
}

// The number after each space of a text, but for one at its end: the part of the lent numbers that they fill; none where
// they do not fit.
fn take_numbers<'a>(text: &[u8], numbers: &'a mut [u16]) -> &'a [u16] {
    let text = text.strip_suffix(b" ").unwrap_or(text);
    let many = text.iter().filter(|b| **b == b' ').count();
    let Some(numbers) = numbers.get_mut(..many) else {
        return &[];
    };
    for (number, word) in numbers.iter_mut().zip(text.split(|b| *b == b' ').skip(1)) {
        *number = (number_of(word).unwrap_or(0) % 65536) as u16;
    }
    numbers
}

// Numbers, each after a space.
fn put_numbers(came: &mut Writer<'_>, numbers: &[u16]) {
    for number in numbers {
        came.put_labelled(b" ", *number);
    }
}
