// The parts of answers. Numbers and bytes are put by `put_decimal` and `put_hex` of stream, which promise their
// digits: with `Display` and `write!` in their place nothing that runs would go by these.
use headend::Headend;
use rules::{Backoff, Reason, Refusal};
use slots::MiniSlot;
use station::{Phase, Station};
use stream::Text;

// What can be put into an answer.
pub trait Part {
    fn put(&self, out: &mut Text);
}

// What begins the answer of a call that is refused.
#[derive(Drop)]
pub struct Refused(pub Refusal);

impl Part for Refused {
    fn put(&self, out: &mut Text) {
        let Refusal { reason, element } = self.0;
        out.put(b"refused");
        Numbers(&[reason.number(), element]).put(out);
    }
}

// 0, or the number of a refusal that names no element.
#[derive(Drop)]
pub struct Code(pub Result<(), Reason>);

impl Part for Code {
    fn put(&self, out: &mut Text) {
        match self.0 {
            Ok(()) => Numbers(&[0]).put(out),
            Err(reason) => Numbers(&[reason.number()]).put(out),
        }
    }
}

// A hex token.
#[derive(Drop)]
pub struct Hex<'a>(pub &'a [u8]);

impl Part for Hex<'_> {
    fn put(&self, out: &mut Text) {
        out.put(b"x");
        for byte in self.0 {
            out.put_hex(*byte);
        }
    }
}

// Each number behind a space.
#[derive(Drop)]
pub struct Numbers<'a>(pub &'a [u32]);

impl Part for Numbers<'_> {
    fn put(&self, out: &mut Text) {
        for n in self.0 {
            out.put(b" ");
            out.put_decimal(u64::from(*n));
        }
    }
}

// START END
#[derive(Drop)]
pub struct Ends(pub Backoff);

impl Part for Ends {
    fn put(&self, out: &mut Text) {
        let Backoff { start, end } = self.0;
        Numbers(&[u32::from(start), u32::from(end)]).put(out);
    }
}

// KNOWN END
#[derive(Drop)]
struct Known(Option<MiniSlot>);

impl Part for Known {
    fn put(&self, out: &mut Text) {
        match self.0 {
            None => Numbers(&[0, 0]).put(out),
            Some(end) => Numbers(&[1, end.0]).put(out),
        }
    }
}

// STATE SIZE EXPONENT LEFT RETRIES TIME: 0 where the phase has no such field.
#[derive(Drop)]
struct Fields(Phase);

impl Part for Fields {
    fn put(&self, out: &mut Text) {
        let numbers = match self.0 {
            Phase::Idle => [0, 0, 0, 0, 0, 0],
            Phase::Wanting { size } => [1, size, 0, 0, 0, 0],
            Phase::Deferring {
                exponent,
                left,
                retries,
                size,
            } => [2, size, exponent, left, retries, 0],
            Phase::Waiting {
                exponent,
                retries,
                time,
                size,
            } => [3, size, exponent, 0, retries, time.0],
        };
        Numbers(&numbers).put(out);
    }
}

// STATION
#[derive(Drop)]
pub struct OfStation(pub Station);

impl Part for OfStation {
    fn put(&self, out: &mut Text) {
        let st = self.0;
        Numbers(&[st.sid, u32::from(st.channel), u32::from(st.count), st.r]).put(out);
        Known(st.end).put(out);
        Fields(st.phase).put(out);
    }
}

// HEADEND, with so many of its places for requests.
#[derive(Drop)]
pub struct OfHeadend(pub Headend, pub usize);

impl Part for OfHeadend {
    fn put(&self, out: &mut Text) {
        let h = self.0;
        Numbers(&[h.next.0, h.ack.0, u32::from(h.channel), u32::from(h.count)]).put(out);
        Ends(h.ranging).put(out);
        Ends(h.data).put(out);
        Numbers(&[h.short, h.held]).put(out);
        for q in h.requests.iter().take(self.1) {
            Numbers(&[q.sid, q.size, q.first.0]).put(out);
        }
    }
}
