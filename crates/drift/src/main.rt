// The yard program. Without arguments: a script from standard input, its printout to standard output. `csv LANE`: the script's
// log of that lane as a CSV file. `csv-read`: what a CSV file from standard input says. Whatever fails is told on standard error;
// the status is 1 only where the input cannot be read or the output not be written.
#![tactic(auto)]

ghost use Rattle.std.specs.Prelude.{◌≡◌, ◌≤◌, length, IfSome};
ghost use Rattle.std.specs.Io.{ReadsAtMost};

use commands::NotMade;
use refusal::Refusal;
use scan::{read_number, start_at};
use std::env::FillError;
use std::io::{ErrorKind, Read};
use std::process::ExitCode;
use std::rt::Env;
use std::{fmt, io};

// What the arguments ask for.
#[derive(Clone, Copy)]
enum Command {
    Script,
    Csv { lane: u8 },
    CsvRead,
}

// Why the arguments ask for nothing.
#[derive(Clone, Copy)]
enum Misuse {
    BadLane,
    Unknown,
}

impl fmt::Display for Misuse {
    fn fmt<W: fmt::Write>(&self, f: &mut fmt::Formatter<W>) -> fmt::Result {
        match self {
            Misuse::BadLane => write!(f, "a lane is a number from 0 to 7"),
            Misuse::Unknown => write!(f, "the commands are csv LANE and csv-read"),
        }
    }
}

// A script or file of 48,001 bytes is refused, so no more are read.
const INPUT: usize = 48001;

// What `csv-read` prints fits.
const SAID: usize = 2054;

// As many bytes of an argument as are looked at: a longer one is no word of a command.
const WORD: usize = 16;

// The status where the reader of the output has stopped reading: what a shell says of a program that SIGPIPE ended.
const READER_STOPPED: u8 = 141;

// The lane that an argument names.
fn lane_of(word: &[u8]) -> Option<u8> {
    let c = read_number(word, start_at(0));
    if c.ok && c.at == word.len() && c.latest < 8 {
        Some(c.latest as u8)
    } else {
        None
    }
}

// Argument i, where it is there and fits the buffer.
fn argument<'a>(rt: &HostRuntime, i: usize, buffer: &'a mut [u8; WORD]) -> Option<&'a [u8]>
    ensures within { IfSome result (λ word. length word.now ≤ length buffer.old) }
    ensures front { IfSome result (λ word. word.ref_ptr ≡ buffer.entry.ref_ptr) }
{
    let n = rt.arg(i, buffer).ok()?;
    Some(&buffer[..n])
}

// How many arguments the program was started with, its own name among them; 4 for all that are more.
fn argument_count(rt: &HostRuntime) -> usize {
    (0..4)
        .find(|&i| matches!(rt.arg(i, &mut [0; WORD]), Err(FillError::NotPresent)))
        .unwrap_or(4)
}

fn asked(rt: &HostRuntime) -> Result<Command, Misuse> {
    let count = argument_count(rt);
    if count < 2 {
        return Ok(Command::Script);
    }
    let mut word = [0; WORD];
    match (argument(rt, 1, &mut word), count) {
        (Some(b"csv-read"), 2) => Ok(Command::CsvRead),
        (Some(b"csv"), 3) => {
            let mut word = [0; WORD];
            let lane = argument(rt, 2, &mut word).and_then(lane_of);
            Ok(Command::Csv {
                lane: lane.ok_or(Misuse::BadLane)?,
            })
        }
        _ => Err(Misuse::Unknown),
    }
}

// A line on standard error: what failed, and why.
fn fail(rt: &HostRuntime, what: &str, why: io::Error) -> ExitCode {
    let _ = eprintln!(rt; "{what}: {why}");
    ExitCode::FAILURE
}

// The first n bytes of a buffer, or all that there are.
fn first(bytes: &[u8], n: usize) -> &[u8] {
    bytes.get(..n).unwrap_or(bytes)
}

// Bytes on standard output. That its reader has stopped reading is not told.
fn print(rt: &HostRuntime, output: &[u8]) -> ExitCode {
    match rt.write_all(output) {
        Ok(()) => ExitCode::SUCCESS,
        Err(why) if why.kind() == ErrorKind::BrokenPipe => ExitCode::from(READER_STOPPED),
        Err(why) => fail(rt, "drift: the output cannot be written", why),
    }
}

// A script's printout.
fn run_script(rt: &HostRuntime, text: &[u8]) -> ExitCode {
    let mut air = [0; air::LENGTH];
    let mut output = [0; script::OUTPUT];
    let printed = script::drift_run_script(text, &mut air, &mut output);
    print(rt, first(&output, printed))
}

// What a CSV file says.
fn read_csv(rt: &HostRuntime, text: &[u8]) -> ExitCode {
    let mut output = [0; SAID];
    let said = commands::put_said(&mut output, text);
    print(rt, first(&output, said))
}

// A script's log of a lane as a CSV file.
fn write_csv(rt: &HostRuntime, text: &[u8], lane: u8) -> ExitCode {
    let mut buffer = [0; csv_log::BUFFER];
    match commands::csv_of_lane(text, usize::from(lane), &mut buffer) {
        Ok(length) => return print(rt, first(&buffer, length)),
        Err(
            NotMade {
                refusal: Refusal::NotInYard,
                ..
            },
        ) => {
            let _ = eprintln!(rt; "there is no post at lane {lane}");
        }
        Err(NotMade { line, refusal }) => {
            let number = u8::from(refusal);
            let _ = eprintln!(rt; "the script is refused: line {line}, number {number}");
        }
    }
    ExitCode::SUCCESS
}

// Reads standard input until the buffer is full, the input ends or a read fails: how many bytes stand in the buffer.
// `bench` has the same function: no crate below the two programs reads input, and one for this alone would be no plainer.
fn read_full(rt: &HostRuntime, buffer: &mut [u8]) -> io::Result<usize>
    ensures { ReadsAtMost result buffer.new }
{
    let mut done = 0;
    while done < buffer.len() {
        let n = rt.stdin().read(&mut buffer[done..])?;
        if n == 0 {
            break;
        }
        done += n;
    }
    Ok(done)
}

// Runs a command on standard input.
fn run(rt: &HostRuntime, command: Command) -> ExitCode {
    let mut text = [0; INPUT];
    let text = match read_full(rt, &mut text) {
        Ok(n) => &text[..n],
        Err(why) => return fail(rt, "drift: the input cannot be read", why),
    };
    match command {
        Command::Script => run_script(rt, text),
        Command::Csv { lane } => write_csv(rt, text, lane),
        Command::CsvRead => read_csv(rt, text),
    }
}

fn main(rt: HostRuntime) -> ExitCode {
    match asked(&rt) {
        Ok(command) => run(&rt, command),
        Err(misuse) => {
            let _ = eprintln!(rt; "{misuse}");
            ExitCode::SUCCESS
        }
    }
}
