// The report of an input, in one pass: each body is read once, its line is put at once, and of the
// MAPs before it only their span is kept.
ghost use Rattle.std.specs.Prelude.{◌≡◌, ◌≤◌, length};
ghost use Rattle.slots.specs.Span.{span_of};
ghost use Rattle.report.specs.Bodies.{bodies_of, maps_in};
ghost use Rattle.report.specs.Text.{lines_from};
ghost use Rattle.report.specs.Report.{enough, reported_of, report_into};
ghost use Rattle.report.specs.Scan.{HasRoom, Put};

use crate::bodies::next_body;
use crate::lines::Lines;
use rules::{Reason, Refusal};
use slots::Span;

pub const LONGEST_INPUT: usize = 65536;

// Lent bytes that are enough for every input.
pub const ROOM: usize = 95593;

// So many lent bytes are always enough for an input of n bytes: 35 for each MAP of 24 bytes or
// more, 16 for a refusal and 27 for the span.
pub fn enough(n: usize) -> usize
    ensures { result ≡ enough n }
{
    43 + 35 * (n.min(LONGEST_INPUT) / 24)
}

// A line for each body, to the first that is bad; and the span of the MAPs.
fn put_bodies(input: &[u8], lines: &mut Lines) -> Span
    requires short { length input.now ≤ 65536 }
    requires room { HasRoom lines.old (lines_from 0 (bodies_of input.now)) }
    ensures span { result ≡ span_of 32 (maps_in (bodies_of input.now)) }
    ensures lines { Put (lines_from 0 (bodies_of input.now)) lines.old lines.new }
{
    let mut left = input;
    let mut number: u32 = 0;
    let mut span = Span::new();
    // How far to go on stands in each body: a `for` would want an iterator of its own.
    while !left.is_empty() {
        match next_body(left) {
            Ok(row) => {
                lines.map(number, row);
                span = span.add(row.start, row.length).unwrap_or(span);
                number += 1;
                left = &left[16 + 4 * row.n as usize..];
            }
            Err(why) => {
                lines.refused(number, why);
                return span;
            }
        }
    }
    span
}

// How many bytes the report has, or that the lent bytes are too few for a report of any input as
// long as this one.
pub fn report(input: &[u8], out: &mut [u8]) -> Result<usize, Refusal>
    ensures { (result ≡ reported_of input.now (length out.old)) × (out.new ≡ report_into input.now out.old) }
{
    if out.len() < enough(input.len()) {
        return Err(Refusal::from(Reason::Room));
    }
    let mut lines = Lines::new(out);
    if LONGEST_INPUT < input.len() {
        lines.put(b"refused input\n");
        return Ok(lines.used);
    }
    let span = put_bodies(input, &mut lines);
    lines.span(span);
    Ok(lines.used)
}
