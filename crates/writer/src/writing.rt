// A message written into lent bytes.
ghost use Rattle.std.specs.Prelude.{◌≡◌, ◌++◌, ◌+◌, ◌*◌, ◌≤◌, length, take, drop};
ghost use Rattle.rules.specs.Rules.{walked, nothing_yet};
ghost use Rattle.writer.specs.Writing.{word_of, header_of, elements_of, room_for, written_of, write_into, laid_out};

use rules::{Element, Fields, Reason, Refusal, Whole, advance, ended, fault, nothing_yet};

// The reader's own walk, over the elements to be written: it yields the first fault by break, as document 01
// has it ("Forms by place"). Every rule and each step is shared (`fault`, `advance`, `ended`); the loop is
// not, as the reader's gets its elements out of bytes, and goes on in another at the Null.
fn walk(elements: &[Element]) -> Result<Whole, Refusal>
    requires { length elements.now ≤ 240 }
    ensures { result ≡ walked 0 nothing_yet elements.now }
{
    let mut p = nothing_yet();
    let mut i: u32 = 0;
    let mut left = elements;
    loop {
        let Some((e, after)) = left.split_first() else {
            break ended(p, i);
        };
        if let Err(reason) = fault(p, *e) {
            break Err(Refusal { reason, element: i });
        }
        p = advance(p, *e, i);
        i += 1;
        left = after;
    }
}

fn word_of(e: Element) -> u32
    ensures { result ≡ word_of e }
{
    e.sid % 16384 * 262144 + e.iuc % 16 * 16384 + e.offset % 16384
}

fn header_of(fields: Fields, n: usize) -> [u8; 16]
    ensures { result ≡ header_of fields n }
{
    let Fields {
        channel,
        count,
        start,
        ack,
        ranging,
        data,
    } = fields;
    let mut header = [0; 16];
    header[..4].copy_from_slice(&[channel, count, (n % 256) as u8, 0]);
    header[4..8].copy_from_slice(&start.0.to_be_bytes());
    header[8..12].copy_from_slice(&ack.0.to_be_bytes());
    header[12..].copy_from_slice(&[ranging.start, ranging.end, data.start, data.end]);
    header
}

// The elements after the header's 16 bytes.
// Tried: `chunks_exact_mut(4).zip(elements)`: the search left it open, and no invariant was found.
fn put_elements(elements: &[Element], out: &mut [u8])
    requires { 16 + 4 * length elements.now ≤ length out.old }
    ensures { out.new ≡ take 16 out.old ++ (elements_of elements.now ++ drop (16 + 4 * length elements.now) out.old) }
{
    for (i, e) in elements.iter().enumerate() {
        let at = 16 + 4 * i;
        out[at..at + 4].copy_from_slice(&word_of(*e).to_be_bytes());
    }
}

// The message laid out, nothing checked: where there is no room for it, not a byte is touched.
pub fn lay_out(fields: Fields, elements: &[Element], out: &mut [u8])
    ensures { out.new ≡ laid_out fields elements.now out.old }
{
    let n = elements.len();
    if out.len() < 16 {
        return;
    }
    if (out.len() - 16) / 4 < n {
        return;
    }
    let header = header_of(fields, n);
    out[..16].copy_from_slice(&header);
    put_elements(elements, out);
}

fn room_for(size: u32, room: usize) -> Result<u32, Refusal>
    ensures { result ≡ room_for size room }
{
    if room < (size as usize) {
        return Err(Refusal::from(Reason::Room));
    }
    Ok(size)
}

// What `write` answers, before a byte is touched.
fn decide(fields: Fields, elements: &[Element], room: usize) -> Result<u32, Refusal>
    ensures { result ≡ written_of fields elements.now room }
{
    let n = elements.len();
    if n == 0 {
        return Err(Refusal::from(Reason::Count));
    }
    if Element::MOST < n {
        return Err(Refusal::from(Reason::Count));
    }
    if fields.bad_backoffs() {
        return Err(Refusal::from(Reason::Backoff));
    }
    walk(elements)?;
    room_for(16 + 4 * (n as u32), room)
}

// The message into the lent bytes, and how many of them it takes; or its refusal: 2, 4, the elements',
// a missing Null, 11.
pub fn write(fields: Fields, elements: &[Element], out: &mut [u8]) -> Result<u32, Refusal>
    ensures { (result ≡ written_of fields elements.now (length out.old)) × (out.new ≡ write_into fields elements.now out.old) }
{
    let size = decide(fields, elements, out.len())?;
    lay_out(fields, elements, out);
    Ok(size)
}
