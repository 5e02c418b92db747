// A script of calls on standard input, a line for each answer on standard output: the format of
// docs/REPLAY.md. The crates' functions do the work; this program adds none.
#![tactic(auto)]

ghost use Rattle.std.specs.Prelude.{◌≡◌, length};

mod bad;
mod headends;
mod line;
mod messages;
mod numbers;
mod places;
mod print;
mod stations;
mod tables;
mod words;

use bad::Bad;
use line::Line;
use places::Places;
use stream::{Failed, Text};

const MOST_INPUT: usize = 1048576;

// The longest answer is that of a refused `issue`: 7 letters, 2 numbers of at most 11 bytes with
// their space, ` x` and 2,000 digits, the headend's 4 numbers of 11 bytes, its 6 of 4 and 64 times 3
// of 11, and the line's end, in all 4,212. This room and those of a line are fixed, as what they hold is
// bounded: on the heap each would only be one failure more.
const ROOM: usize = 8192;

fn answered(places: &mut Places, line: &[u8], out: &mut Text) -> Result<(), Bad> {
    let mut numbers = [0u32; Line::MOST_NUMBERS];
    let mut bytes = [0u8; Line::MOST_BYTES];
    let line = Line::parse(line, &mut numbers, &mut bytes)?;
    places.call(line, out)
}

// One write for each line.
fn replied(rt: &HostRuntime, places: &mut Places, line: &[u8]) -> Result<(), Failed> {
    let mut room = [0u8; ROOM];
    let mut out = Text::new(&mut room);
    if answered(places, line, &mut out).is_err() {
        out.put(b"bad");
    }
    out.put(b"\n");
    let used = out.used;
    stream::tell_line(
        &mut rt.stdout(),
        &mut rt.stderr(),
        b"replay: standard output",
        out.bytes,
        used,
    )
}

// An empty line has no answer; where one can't be written, the run ends.
fn run(rt: &HostRuntime, script: &[u8]) -> Result<(), Failed> {
    let mut places = Places::new();
    for line in script.split(|b| *b == b'\n') {
        if !line.is_empty() {
            replied(rt, &mut places, line)?;
        }
    }
    Ok(())
}

// One byte more than a script may have is enough to know that it is too long. Its own function: a
// caller that saw the zeros would have each of them looked at in its proof.
fn input() -> [u8; 1048577]
    ensures { 1048577 ≡ length result }
{
    [0; 1048577]
}

fn replay(rt: &HostRuntime) -> Result<(), Failed> {
    let mut input = input();
    let n = stream::whole(
        &mut rt.stdin(),
        &mut rt.stderr(),
        b"replay: standard input",
        &mut input,
    )?;
    // Answered as one line that is no call.
    if MOST_INPUT < n {
        return run(rt, b"bad");
    }
    run(rt, &input[..n])
}

// A failure was said, and makes no exit status.
fn main(rt: HostRuntime) {
    let _ = replay(&rt);
}
