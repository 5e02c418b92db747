// The calls on one headend: each puts its answer into the text, and the headend after it into its
// place.
use crate::bad::Bad;
use crate::numbers::{at, of_channel, triples};
use crate::print::{Hex, Numbers, OfHeadend, Part, Refused};
use headend::{Headend, Request};
use rules::Backoff;
use slots::MiniSlot;
use stream::Text;

// A headend that no set-up has touched: all zeros.
pub fn untouched() -> Headend {
    let zero = Backoff { start: 0, end: 0 };
    Headend {
        next: MiniSlot(0),
        ack: MiniSlot(0),
        channel: 0,
        count: 0,
        ranging: zero,
        data: zero,
        short: 0,
        held: 0,
        requests: [Request::SPARE; 64],
    }
}

// With the places that hold a request.
fn whole(headend: &Headend) -> OfHeadend {
    OfHeadend(*headend, headend.held as usize)
}

fn shown(headend: OfHeadend, out: &mut Text) {
    out.put(b"headend");
    headend.put(out);
}

pub fn set_up(headends: &mut [Headend], numbers: &[u32], out: &mut Text) -> Result<(), Bad> {
    let (headend, numbers) = at(headends, numbers)?;
    let [next, channel, count, rs, re, ds, de, short] = <[u32; 8]>::try_from(numbers)?;
    let (channel, count, ranging, data) = of_channel([channel, count, rs, re, ds, de])?;
    match Headend::new(MiniSlot(next), channel, count, ranging, data, short) {
        Ok(made) => {
            *headend = made;
            shown(whole(headend), out);
        }
        Err(why) => Refused(why).put(out),
    }
    Ok(())
}

// 64 triples at most.
pub fn holding(headends: &mut [Headend], numbers: &[u32], out: &mut Text) -> Result<(), Bad> {
    let (headend, numbers) = at(headends, numbers)?;
    let [
        next,
        ack,
        channel,
        count,
        rs,
        re,
        ds,
        de,
        short,
        held,
        given @ ..,
    ] = numbers
    else {
        return Err(Bad);
    };
    let (channel, count, ranging, data) = of_channel([*channel, *count, *rs, *re, *ds, *de])?;
    let mut requests = [Request::SPARE; 64];
    triples(given, &mut requests)?;
    *headend = Headend {
        next: MiniSlot(*next),
        ack: MiniSlot(*ack),
        channel,
        count,
        ranging,
        data,
        short: *short,
        held: *held,
        requests,
    };
    shown(whole(headend), out);
    Ok(())
}

// As many places as the line says, spare ones too; else those that hold a request.
pub fn held(headends: &mut [Headend], numbers: &[u32], out: &mut Text) -> Result<(), Bad> {
    let (headend, numbers) = at(headends, numbers)?;
    match numbers {
        [] => shown(whole(headend), out),
        [places] if *places <= 64 => shown(OfHeadend(*headend, *places as usize), out),
        _ => return Err(Bad),
    }
    Ok(())
}

pub fn request(headends: &mut [Headend], numbers: &[u32], out: &mut Text) -> Result<(), Bad> {
    let (headend, numbers) = at(headends, numbers)?;
    let [sid, size, first] = <[u32; 3]>::try_from(numbers)?;
    let taking = headend.request(sid, size, MiniSlot(first));
    *headend = taking.headend;
    match taking.answer {
        Ok(()) => out.put(b"taken"),
        Err(why) => Refused(why).put(out),
    }
    whole(headend).put(out);
    Ok(())
}

// The answer, and what the lent bytes hold then.
pub fn issue(headends: &mut [Headend], numbers: &[u32], out: &mut Text) -> Result<(), Bad> {
    let (headend, numbers) = at(headends, numbers)?;
    let [ack, c, budget, room] = <[u32; 4]>::try_from(numbers)?;
    let mut bytes = [0xA5u8; 1000];
    let lent = bytes.get_mut(..room as usize).ok_or(Bad)?;
    let issuing = issuing::issue(*headend, MiniSlot(ack), c, budget, lent);
    *headend = issuing.headend;
    match issuing.answer {
        Ok(size) => {
            out.put(b"issued");
            Numbers(&[size]).put(out);
        }
        Err(why) => Refused(why).put(out),
    }
    out.put(b" ");
    Hex(lent).put(out);
    whole(headend).put(out);
    Ok(())
}
