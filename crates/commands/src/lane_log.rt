// The log of a lane from its row in a state, as numbers and as a CSV file.
ghost use Rattle.std.specs.Prelude.{◌≡◌, [], ◌∷◌, map, ◌+◌, ◌<◌, length};
ghost use Rattle.std.proofs.lemmas.List.Edits.{sets};
ghost use Rattle.row.specs.Rows.{post_in};
ghost use Rattle.state.specs.States.{yard_in};
ghost use Rattle.csv_log.specs.Log.{item_numbers};
ghost use Rattle.desk.specs.Desk.{item_of};
ghost use Rattle.roll.specs.Logs.{order_at, orders_logged};
ghost use Rattle.commands.specs.Making.{lane_answer, lane_made, lane_buffer};

use csv_log::NUMBERS;
use frame::Serial;
use refusal::Refusal;

// Orders of a lane.
const ORDERS: u16 = Serial::LAST as u16;

// The file of the log of a lane of a state: its length, or 21.
pub(crate) fn put_lane(
    state: &[u16; state::LENGTH],
    lane: usize,
    buffer: &mut [u8],
) -> Result<usize, Refusal>
    requires { lane < 8 }
    ensures value { lane_answer result ≡ lane_made (yard_in state.now) lane buffer.old }
    ensures bytes { buffer.new ≡ lane_buffer (yard_in state.now) lane buffer.old }
{
    let present = row::get(state, state::PRESENT);
    if !cells::has(present, lane as u16) {
        return Err(Refusal::NotInYard);
    }
    let start = state::ROWS + row::LENGTH * lane;
    let mut numbers = [0u16; NUMBERS];
    let n = log_numbers(&state[start..start + row::LENGTH], &mut numbers);
    let length = csv_log::write(&numbers[..n], buffer)?;
    Ok(length as usize)
}

// The numbers of a row's log, three an order: how many numbers there are.
fn log_numbers(row: &[u16], numbers: &mut [u16; NUMBERS]) -> usize
    ensures value { result ≡ length (item_numbers (map item_of (orders_logged (post_in row.now)))) }
    ensures numbers { numbers.new ≡ sets numbers.old 0 (item_numbers (map item_of (orders_logged (post_in row.now)))) }
{
    let mut n = 0;
    for &place in row::log_of(row) {
        put_order(numbers, n, row, place);
        n += 3;
    }
    n
}

// The three numbers of the order kept at a place.
fn put_order(numbers: &mut [u16; NUMBERS], i: usize, row: &[u16], place: u16)
    requires { i + 2 < 384 }
    ensures { numbers.new ≡ sets numbers.old i (item_numbers (item_of (order_at (post_in row.now) place) ∷ [])) }
{
    numbers[i] = row::stamp_at(row, place as usize).0;
    numbers[i + 1] = place / ORDERS;
    numbers[i + 2] = row::get_in(row, row::WORDS, row::ORDERS, place as usize);
}
