// An answer as one number, for programs in C: specs/Told.antt.
#![tactic(auto)]

ghost use Rattle.std.specs.Prelude.{◌≡◌, ◌%◌};
ghost use Rattle.steps.specs.Answers.{order_number, hear_number, beacon_number};
ghost use Rattle.told.specs.Told.{told, order_told, hear_told, beacon_told, order_numbered, hear_numbered, beacon_numbered};

use steps::{Hearing, Sent};

// The codes of answers.
const REFUSED: u8 = 0;

const SENT: u8 = 1;

const TAKEN: u8 = 2;

const AGAIN: u8 = 3;

const EARLY: u8 = 4;

const BEACON_HEARD: u8 = 5;

const BEACON_SENT: u8 = 6;

// An answer's number and values, each in its bits; the lowest eight are the number.
pub fn told(number: u8, code: u8, count: u8, serial: u8, stamp: u16, steps: u16) -> u64
    ensures value { result ≡ told number code count serial stamp steps }
    ensures number { result % 256 ≡ number }
{
    let high = ((stamp as u64) << 32) + ((steps as u64) << 48);
    let middle = ((count as u64) << 16) + (((serial as u64) << 24) + high);
    (number as u64) + (((code as u64) << 8) + middle)
}

// What was refused is told by any number, one of the documents or not.
pub fn order_told(answer: Result<Sent, u8>) -> u64
    ensures value { result ≡ order_told (order_numbered answer) }
    ensures number { result % 256 ≡ order_number (order_numbered answer) }
{
    match answer {
        Ok(sent) => told(0, SENT, sent.count, sent.serial.0, sent.stamp.0, 0),
        Err(number) => told(number, REFUSED, 0, 0, 0, 0),
    }
}

pub fn hear_told(answer: Result<Hearing, u8>) -> u64
    ensures value { result ≡ hear_told (hear_numbered answer) }
    ensures number { result % 256 ≡ hear_number (hear_numbered answer) }
{
    match answer {
        Ok(Hearing::Taken(count)) => told(0, TAKEN, count, 0, 0, 0),
        Ok(Hearing::Again(count)) => told(0, AGAIN, count, 0, 0, 0),
        Ok(Hearing::Early(count)) => told(0, EARLY, count, 0, 0, 0),
        Ok(Hearing::Beacon(count)) => told(0, BEACON_HEARD, count, 0, 0, 0),
        Err(number) => told(number, REFUSED, 0, 0, 0, 0),
    }
}

pub fn beacon_told(answer: Result<(), u8>) -> u64
    ensures value { result ≡ beacon_told (beacon_numbered answer) }
    ensures number { result % 256 ≡ beacon_number (beacon_numbered answer) }
{
    match answer {
        Ok(()) => told(0, BEACON_SENT, 0, 0, 0, 0),
        Err(number) => told(number, REFUSED, 0, 0, 0, 0),
    }
}
