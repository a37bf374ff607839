// Answers, numbers and cells as they are compared.
use text::Writer;

// A text and a number.
pub(crate) fn put_line(came: &mut Writer<'_>, text: &[u8], number: u16) {
    came.put_labelled(text, number);
    came.put_byte(b'\n');
}

// Cells, two bytes each, the higher first.
pub(crate) fn put_cells(came: &mut Writer<'_>, cells: &[u16]) {
    for cell in cells {
        came.put_text(&cell.to_be_bytes());
    }
}

// An answer told as one number with a code, as C gets it (crate `told`). "An order answers with its serial, its stamp and
// the count delivered"; every other answer has one of refusal, count and single steps.
pub(crate) fn put_told(came: &mut Writer<'_>, told: u64) {
    let [
        refusal,
        code,
        count,
        serial,
        stamp,
        stamp_high,
        steps,
        steps_high,
    ] = told.to_le_bytes();
    if code == 1 {
        let stamp = u16::from_le_bytes([stamp, stamp_high]);
        came.put_labelled(b"sent ", u16::from(serial));
        came.put_labelled(b" ", stamp);
        put_line(came, b" ", u16::from(count));
        return;
    }
    let word: &[u8] = match code {
        0 => b"refused ",
        2 => b"taken ",
        3 => b"again ",
        4 => b"early ",
        5 => b"beacon ",
        6 => b"sent ",
        7 => b"none ",
        8 => b"called ",
        9 => b"bad ",
        _ => b"state ",
    };
    let steps = u16::from_le_bytes([steps, steps_high]);
    let number = steps
        .wrapping_add(u16::from(refusal))
        .wrapping_add(u16::from(count));
    put_line(came, word, number);
}
