// MAP bodies back to back: each takes 16 + 4n bytes.
ghost use Rattle.std.specs.Prelude.{◌≡◌};
ghost use Rattle.report.specs.Bodies.{body_by, next_of};

use message::{Reading, read};
use rules::{Reason, Refusal};
use slots::MiniSlot;

// What the report says of an accepted MAP.
#[derive(Clone, Copy, PartialEq, Eq)]
pub struct Row {
    pub start: MiniSlot,
    pub length: u32,
    pub n: u32,
}

fn body_by(answer: Result<Reading, Refusal>) -> Result<Row, Reason>
    ensures { result ≡ body_by answer }
{
    match answer {
        Ok(reading) => Ok(Row {
            start: reading.fields.start,
            length: reading.length,
            n: reading.n,
        }),
        Err(refusal) => Err(refusal.reason),
    }
}

// What stands at the start of what is left of the input: a MAP, or why it is refused.
pub(crate) fn next_body(left: &[u8]) -> Result<Row, Reason>
    ensures { result ≡ next_of left.now }
{
    if left.len() < 16 {
        return Err(Reason::Short);
    }
    let n = usize::from(left[2]);
    if n == 0 || 240 < n {
        return Err(Reason::Count);
    }
    let Some(body) = left.get(..16 + 4 * n) else {
        return Err(Reason::Length);
    };
    body_by(read(body))
}
