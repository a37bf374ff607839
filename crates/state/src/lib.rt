// A yard in one lent state of cells, and a fresh yard laid into it. Total: any cells, any sets, and a refusal leaves the state
// as it was. The contract cites specs/Fresh.antt; specs/States.antt has the layout.
#![tactic(auto)]

mod making;

ghost use Rattle.std.specs.Prelude.{◌≡◌};
ghost use Rattle.state.specs.States.{held_in};
ghost use Rattle.state.specs.Fresh.{Made, fresh_in};
ghost use Rattle.refusal.specs.Numbers.{refused_with};

use making::Roles;
use refusal::Refusal;

// How many lanes there are.
pub const LANES: usize = 8;

// Cells of a state: the set of posts, the set of sources, how many frames were sent, how many beacons by each lane, the first
// frames, the rows.
pub const PRESENT: usize = 0;

pub const SOURCES: usize = 1;

pub const FRAMES: usize = 2;

pub const BEACONS_SENT: u16 = 3;

pub const FIRST: u16 = BEACONS_SENT + LANES as u16;

pub const ROWS: usize = (FIRST + row::ORDERS) as usize;

pub const LENGTH: usize = ROWS + LANES * row::LENGTH;

// A fresh yard from the lanes that have a post, the sources and the destinations (3, 12).
pub fn fresh(state: &mut [u16], present: u8, sources: u8, dests: u8) -> Result<(), Refusal>
    ensures { ◌≡◌ {A = Made} (record { number = refused_with result; held = held_in state.new }) (fresh_in (held_in state.old) present sources dests) }
{
    if present.count_ones() == 0 {
        return Err(Refusal::NoYard);
    }
    let roles = Roles {
        present: present as u16,
        sources: sources as u16,
        dests: dests as u16,
    };
    if cells::role_astray(roles.present, roles.sources, roles.dests) {
        return Err(Refusal::BadRecord);
    }
    let Some(state) = state.as_mut_array::<LENGTH>() else {
        return Err(Refusal::BadRecord);
    };
    roles.lay_front(state);
    roles.lay_rows(state);
    Ok(())
}
