// Standard input, whole, and its report on standard output. One byte more than the longest input is
// enough to know that an input is too long; so the room is fixed, and no heap asked.
#![tactic(auto)]

use stream::Failed;

// ROOM is enough for every input; were it not, that would be said.
fn told(rt: &HostRuntime, input: &[u8]) -> Result<(), Failed> {
    let mut out = [0u8; report::ROOM];
    let Ok(length) = report::report(input, &mut out) else {
        stream::complain(&mut rt.stderr(), b"mapspan", b"no room for the report");
        return Err(Failed);
    };
    stream::tell(
        &mut rt.stdout(),
        &mut rt.stderr(),
        b"mapspan: standard output",
        &out[..length],
    )
}

fn run(rt: &HostRuntime) -> Result<(), Failed> {
    let mut input = [0u8; 65537];
    let n = stream::whole(
        &mut rt.stdin(),
        &mut rt.stderr(),
        b"mapspan: standard input",
        &mut input,
    )?;
    told(rt, &input[..n])
}

// A failure was said, and makes no exit status.
fn main(rt: HostRuntime) {
    let _ = run(&rt);
}
