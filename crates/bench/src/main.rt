// The yard bench of document 01 and the cases of document 02, K1, run on the compiled code. The cases stand in the file
// `stdin` of this crate, which says how they are written: one for each case of the joint table (crate `script_table`). Each
// is run, and what came is compared with what the case expects.
#![tactic(auto)]

mod answers;
mod cases;
mod frames;
mod logs;
mod posts;
mod yards;

ghost use Rattle.std.specs.Io.{ReadsAtMost};
ghost use Rattle.std.specs.Prelude.{◌≤◌};

use cases::{Block, after, number_of};
use scan::byte_at;
use std::io;
use std::io::Read;
use text::Writer;

// How many cases were run, and how many of them were the same.
#[derive(Clone, Copy)]
struct Counts {
    cases: usize,
    same: usize,
    ghost within: { same ≤ cases },
}

fn main(rt: HostRuntime) -> io::Result<()> {
    let mut file = [0u8; 131072];
    let n = read_full(&rt, &mut file)?;
    let counts = run_file(&rt, &file[..n])?;
    println!(rt;
        "{} cases, {} same, {} different",
        counts.cases,
        counts.same,
        counts.cases - counts.same
    )
}

// Reads standard input until the buffer is full, the input ends or a read fails: how many bytes stand in the buffer.
// `drift` has the same function: no crate below the two programs reads input, and one for this alone would be no plainer.
fn read_full(rt: &HostRuntime, buffer: &mut [u8]) -> io::Result<usize>
    ensures { ReadsAtMost result buffer.new }
{
    let mut done = 0usize;
    while done < buffer.len() {
        let n = rt.stdin().read(&mut buffer[done..])?;
        if n == 0 {
            break;
        }
        done += n;
    }
    Ok(done)
}

// Runs each case on the input that stands above it. A line's first letter says what it heads.
fn run_file(rt: &HostRuntime, file: &[u8]) -> io::Result<Counts> {
    let mut cases = 0usize;
    let mut same = 0usize;
    let mut input = Block::first(file);
    let mut rest = file;
    while !rest.is_empty() {
        let block = Block::first(rest);
        match rest {
            [b'i', ..] => input = block,
            [b'c', ..] => {
                cases += 1;
                if run_case(rt, input, block)? {
                    same += 1;
                }
            }
            _ => {}
        }
        rest = block.below;
    }
    Ok(Counts { cases, same })
}

// `input NUMBER` and `case NAME VERB NUMBER`: whether what the verb gives is what is expected.
fn run_case(rt: &HostRuntime, input: Block, case: Block) -> io::Result<bool> {
    let mut given = [0; 49152];
    let mut expected = [0; 8192];
    let mut came = [0; script::OUTPUT];
    let given = input.put_text(&mut given);
    let expected = case.put_text(&mut expected);
    let set = after(input.heading, b't')
        .strip_prefix(b" ")
        .and_then(number_of);
    let name = after(case.heading, b' ');
    let verb = after(name, b' ');
    let n = run_verb(verb, set.unwrap_or(air::LENGTH), given, expected, &mut came);
    let name = &name[..name.len() - verb.len()];
    tell(rt, name, expected, came.get(..n).unwrap_or(&[]))
}

// What a verb gives: how many bytes; a script prints straight into the buffer. By the verb's first letter in place: an enum
// of the verbs would say each once more.
fn run_verb(verb: &[u8], set: usize, given: &[u8], expected: &[u8], buffer: &mut [u8]) -> usize {
    let number = number_of(after(verb, b' ')).unwrap_or(0);
    let letter = byte_at(verb, 0);
    if letter == b'p' {
        return yards::prints(given, set, buffer);
    }
    let mut came = Writer::new(buffer);
    match letter {
        b'a' => yards::answers(given, set, true, &mut came),
        b'l' => yards::answers(given, set, false, &mut came),
        b'e' => yards::equals(given, expected, set, &mut came),
        b'f' => yards::frame(given, number, &mut came),
        b'n' => yards::number(given, &mut came),
        b't' => yards::taken(given, number, &mut came),
        b's' => posts::play(number, set, given, &mut came),
        b'j' => frames::judges(given, &mut came),
        b'r' => frames::reads(given, &mut came),
        b'w' => frames::writes(given, number, &mut came),
        b'c' => logs::composes(given, number, &mut came),
        b'i' => logs::imports(given, number, &mut came),
        _ => {}
    }
    came.at()
}

// Prints the case's name and how it came out: whether it is the same.
fn tell(rt: &HostRuntime, name: &[u8], expected: &[u8], came: &[u8]) -> io::Result<bool> {
    rt.write_all(name)?;
    if expected == came {
        rt.write_all(b"same\n")?;
        return Ok(true);
    }
    rt.write_all(b"DIFFERENT, came\n")?;
    rt.write_all(came)?;
    Ok(false)
}
