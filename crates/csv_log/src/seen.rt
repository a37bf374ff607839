// What is kept of the records before one, and the judgement of the next: specs/Seen.antt.
ghost use Rattle.std.specs.Prelude.{◌≡◌, []};
ghost use Rattle.refusal.specs.Numbers.{refused_with};
ghost use Rattle.csv_log.specs.Log.{log_item, in_range, rises};
ghost use Rattle.csv_log.specs.Seen.{refusal_by, seen_after};

use crate::LogItem;
use frame::{Frame, Serial};
use refusal::Refusal;

const LAST_LANE: u32 = Frame::LAST_LANE as u32;

const LANE_ORDERS: u16 = Serial::LAST as u16;

const ORDERS: u16 = cells::PLACES as u16;

// How many orders there are, the stamp and the lane of the last, and how many each lane has.
#[derive(Drop)]
pub(crate) struct Seen {
    pub orders: u16,
    pub stamp: u16,
    pub lane: u16,
    pub lanes: [u16; Frame::LANES],
}

impl Seen {
    ghost use Rattle.csv_log.specs.Seen.{none_seen, cells_of};

    pub(crate) fn new() -> Seen
        ensures { result ≡ none_seen }
    {
        Seen {
            orders: 0,
            stamp: 0,
            lane: 0,
            lanes: [0; Frame::LANES],
        }
    }

    // An order after those seen, which then has been seen too.
    #[tactic(auto, using(crate::proofs::Logs::in_range_lem), unfolding(crate::specs::Seen::refusal_by, crate::specs::Seen::seen_after, crate::specs::Seen::seen_with))]
    pub(crate) fn see(&mut self, x: LogItem) -> Result<(), Refusal>
        ensures value { refused_with result ≡ refusal_by (cells_of self.old) x }
        ensures seen { cells_of self.new ≡ seen_after (cells_of self.old) x }
    {
        if !x.is_in_range() {
            return Err(Refusal::BadFields);
        }
        let lane = x.lane as usize;
        if !x.rises_above(self.stamp, self.lane)
            || self.orders >= ORDERS
            || self.lanes[lane] >= LANE_ORDERS
        {
            return Err(Refusal::NotRising);
        }
        self.orders += 1;
        self.stamp = x.stamp as u16;
        self.lane = x.lane as u16;
        self.lanes[lane] += 1;
        Ok(())
    }
}

impl LogItem {
    // Within document 01's ranges.
    #[tactic(auto, unfolding(crate::specs::Log::in_range))]
    fn is_in_range(self) -> bool
        ensures { result ≡ in_range self }
    {
        0 < self.stamp && self.stamp <= 65535 && self.lane <= LAST_LANE && self.word <= 65535
    }

    // By stamp and then lane.
    #[tactic(auto, unfolding(crate::specs::Log::rises))]
    fn rises_above(self, stamp: u16, lane: u16) -> bool
        ensures { result ≡ rises (log_item stamp lane 0) self }
    {
        (stamp as u32, lane as u32) < (self.stamp, self.lane)
    }
}
