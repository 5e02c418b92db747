// The calls on messages and on times: each puts its answer into the text.
use crate::bad::Bad;
use crate::numbers::{of_channel, triples};
use crate::print::{Ends, Hex, Numbers, Part, Refused};
use message::Reading;
use rules::{Element, Fields, Reason, Refusal};
use slots::{MiniSlot, Span};
use stream::Text;

pub fn read(numbers: &[u32], bytes: &[u8], out: &mut Text) -> Result<(), Bad> {
    let [] = <[u32; 0]>::try_from(numbers)?;
    match message::read(bytes) {
        Ok(reading) => map(reading, out),
        Err(why) => Refused(why).put(out),
    }
    Ok(())
}

fn map(reading: Reading, out: &mut Text) {
    let fields = reading.fields;
    out.put(b"map");
    Numbers(&[u32::from(fields.channel), u32::from(fields.count)]).put(out);
    Numbers(&[reading.n, fields.start.0, fields.ack.0]).put(out);
    Ends(fields.ranging).put(out);
    Ends(fields.data).put(out);
    Numbers(&[reading.null, reading.length]).put(out);
}

pub fn after(numbers: &[u32], bytes: &[u8], out: &mut Text) -> Result<(), Bad> {
    let [] = <[u32; 0]>::try_from(numbers)?;
    Hex(message::after_null(bytes)).put(out);
    Ok(())
}

pub fn grant(numbers: &[u32], bytes: &[u8], out: &mut Text) -> Result<(), Bad> {
    let [sid, k] = <[u32; 2]>::try_from(numbers)?;
    match message::grant(bytes, sid, k) {
        Ok(Some(granted)) => {
            out.put(b"grant");
            Numbers(&[granted.first.0, granted.length]).put(out);
        }
        Ok(None) => out.put(b"none"),
        Err(why) => Refused(why).put(out),
    }
    Ok(())
}

const NO_ELEMENT: Element = Element {
    sid: 0,
    iuc: 0,
    offset: 0,
};

// The answer, and then what the lent bytes hold.
pub fn write(numbers: &[u32], out: &mut Text) -> Result<(), Bad> {
    let [room, channel, count, start, ack, rs, re, ds, de, given @ ..] = numbers else {
        return Err(Bad);
    };
    let (channel, count, ranging, data) = of_channel([*channel, *count, *rs, *re, *ds, *de])?;
    let fields = Fields {
        channel,
        count,
        start: MiniSlot(*start),
        ack: MiniSlot(*ack),
        ranging,
        data,
    };
    let mut bytes = [0xA5u8; 1000];
    let lent = bytes.get_mut(..*room as usize).ok_or(Bad)?;
    let mut elements = [NO_ELEMENT; 241];
    let elements = triples(given, &mut elements)?;
    match writer::write(fields, elements, lent) {
        Ok(size) => {
            out.put(b"wrote");
            Numbers(&[size]).put(out);
        }
        Err(why) => Refused(why).put(out),
    }
    out.put(b" ");
    Hex(lent).put(out);
    Ok(())
}

pub fn begins(numbers: &[u32], out: &mut Text) -> Result<(), Bad> {
    let [slot, m] = <[u32; 2]>::try_from(numbers)?;
    match MiniSlot(slot).begins(m) {
        Some(time) => {
            out.put(b"begins");
            Numbers(&[time.0]).put(out);
        }
        None => Refused(Refusal::from(Reason::Size)).put(out),
    }
    Ok(())
}

pub fn earlier(numbers: &[u32], out: &mut Text) -> Result<(), Bad> {
    let [a, b] = <[u32; 2]>::try_from(numbers)?;
    out.put(if MiniSlot(a).earlier(MiniSlot(b)) {
        b"yes"
    } else {
        b"no"
    });
    Ok(())
}

// 300 pairs at most.
pub fn span(numbers: &[u32], out: &mut Text) -> Result<(), Bad> {
    if numbers.len() % 2 != 0 || 600 < numbers.len() {
        return Err(Bad);
    }
    let mut span = Span::new();
    let mut left: u32 = 0;
    for pair in numbers.chunks_exact(2) {
        match span.add(MiniSlot(pair[0]), pair[1]) {
            Some(wider) => span = wider,
            None => left = left.saturating_add(1),
        }
    }
    match span {
        Span::Over { earliest, latest } => {
            out.put(b"span");
            Numbers(&[earliest.0, latest.0]).put(out);
        }
        Span::Nothing | Span::Lost => out.put(b"span none"),
    }
    Numbers(&[left]).put(out);
    Ok(())
}
