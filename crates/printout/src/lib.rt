// The lines of the printout into a lent buffer. The contracts cite Texts.antt of the crate `meaning`; those of private
// functions cite specs/Items.antt besides.
#![tactic(auto)]

ghost use Rattle.roll.specs.Logs.{order_at};
ghost use Rattle.row.specs.Rows.{post_in};
ghost use Rattle.text.specs.Writing.{Wrote};
ghost use Rattle.meaning.specs.Texts.{bad_text, refused_text, three_text, item_text, post_text};
ghost use Rattle.printout.specs.Items.{refusal_text, post_head, items_of};

use frame::Serial;
use text::Writer;

// Orders of a lane.
const ORDERS: u16 = Serial::LAST as u16;

// `(bad LINE NUMBER)`
#[tactic(auto, unfolding(meaning::specs::Texts::bad_text))]
pub fn put_bad(output: &mut Writer<'_>, line: u16, number: u8)
    ensures { Wrote output.old output.new (bad_text line number) }
{
    put_refusal(output, b"(bad ", line, number);
}

// `(refused LINE NUMBER)`
#[tactic(auto, unfolding(meaning::specs::Texts::refused_text))]
pub fn put_refused(output: &mut Writer<'_>, line: u16, number: u8)
    ensures { Wrote output.old output.new (refused_text line number) }
{
    put_refusal(output, b"(refused ", line, number);
}

// A label, then `LINE NUMBER)`.
#[tactic(auto, using(text::proofs::Laws::wrote_append))]
fn put_refusal(output: &mut Writer<'_>, label: &[u8], line: u16, number: u8)
    ensures { Wrote output.old output.new (refusal_text label.now line number) }
{
    output.put_labelled(label, line);
    output.put_labelled(b" ", number as u16);
    output.put_text(b")\n");
}

// `(post LANE (clock CLOCK) (sent SENT) (log ITEMS))`, of the post in a row.
pub fn put_post(output: &mut Writer<'_>, lane: u16, row: &[u16])
    ensures { Wrote output.old output.new (post_text lane (post_in row.now)) }
{
    let numbers = row::read_numbers(row);
    put_head(output, lane, numbers.clock.0, numbers.serial.0);
    put_items(output, row);
    output.put_text(b"))\n");
}

// `(post LANE (clock CLOCK) (sent SENT) (log`
#[tactic(auto, using(text::proofs::Laws::wrote_append))]
fn put_head(output: &mut Writer<'_>, lane: u16, clock: u16, sent: u16)
    ensures { Wrote output.old output.new (post_head lane clock sent) }
{
    output.put_labelled(b"(post ", lane);
    output.put_labelled(b" (clock ", clock);
    output.put_labelled(b") (sent ", sent);
    output.put_text(b") (log");
}

// The items of a row's log.
fn put_items(output: &mut Writer<'_>, row: &[u16])
    ensures { Wrote output.old output.new (items_of (post_in row.now) (post_in row.now).logged) }
{
    for &place in row::log_of(row) {
        put_item(output, row, place);
    }
}

// ` (STAMP LANE WORD)` of the order kept at a place.
fn put_item(output: &mut Writer<'_>, row: &[u16], place: u16)
    ensures { Wrote output.old output.new (item_text (order_at (post_in row.now) place)) }
{
    let stamp = row::stamp_at(row, place as usize);
    let word = row::get_in(row, row::WORDS, row::ORDERS, place as usize);
    put_three(output, stamp.0, place / ORDERS, word);
}

// ` (STAMP LANE WORD)`
#[tactic(auto, using(text::proofs::Laws::wrote_append))]
pub fn put_three(output: &mut Writer<'_>, stamp: u16, lane: u16, word: u16)
    ensures { Wrote output.old output.new (three_text stamp lane word) }
{
    output.put_labelled(b" (", stamp);
    output.put_labelled(b" ", lane);
    output.put_labelled(b" ", word);
    output.put_text(b")");
}
