// A worked run of the headend: each line says what is asked and what is answered, and the bytes of
// a MAP follow on a line of their own.
#![tactic(auto)]

ghost use Rattle.std.specs.Prelude.{◌≤◌};

use headend::Headend;
use rules::{Backoff, Refusal};
use slots::MiniSlot;
use stream::{Failed, Text};

// The longest line is that of 28 bytes, 84 with its end.
const LONGEST_LINE: usize = 256;

// What is asked or answered: a word, and its numbers. Numbers and bytes are put by `put_decimal` and `put_hex` of
// stream, which promise their digits: with `Display` and `write!` in their place nothing that runs would go by these.
#[derive(Clone, Copy)]
struct Said<'a>(&'a [u8], &'a [u32]);

impl Said<'_> {
    fn put(self, out: &mut Text) {
        let Said(word, numbers) = self;
        out.put(word);
        for n in numbers {
            out.put(b" ");
            out.put_decimal(u64::from(*n));
        }
    }
}

fn end_line(rt: &HostRuntime, out: &mut Text) -> Result<(), Failed> {
    out.put(b"\n");
    let used = out.used;
    stream::tell_line(
        &mut rt.stdout(),
        &mut rt.stderr(),
        b"headrun: standard output",
        out.bytes,
        used,
    )
}

fn tell(rt: &HostRuntime, asked: Said, answered: Said) -> Result<(), Failed> {
    let mut room = [0u8; LONGEST_LINE];
    let mut out = Text::new(&mut room);
    asked.put(&mut out);
    answered.put(&mut out);
    end_line(rt, &mut out)
}

fn tell_refused(rt: &HostRuntime, asked: Said, why: Refusal) -> Result<(), Failed> {
    tell(rt, asked, Said(b" refused", &[why.reason.number()]))
}

// Two digits for each byte, with single spaces between.
fn tell_hex(rt: &HostRuntime, bytes: &[u8]) -> Result<(), Failed> {
    let mut room = [0u8; LONGEST_LINE];
    let mut out = Text::new(&mut room);
    for (i, byte) in bytes.iter().enumerate() {
        if i != 0 {
            out.put(b" ");
        }
        out.put_hex(*byte);
    }
    end_line(rt, &mut out)
}

// None where the set-up is refused.
fn set_up(rt: &HostRuntime, next: u32, most: u8) -> Result<Option<Run<'_>>, Failed> {
    let ranging = Backoff { start: 0, end: 4 };
    let data = Backoff {
        start: 2,
        end: most,
    };
    let numbers = [next];
    let asked = Said(b"set up", &numbers);
    match Headend::new(MiniSlot(next), 1, 2, ranging, data, 16) {
        Ok(headend) => {
            tell(rt, asked, Said(b" taken", &[]))?;
            Ok(Some(Run { rt, headend }))
        }
        Err(why) => {
            tell_refused(rt, asked, why)?;
            Ok(None)
        }
    }
}

// A headend, and where its answers are told. Each method answers the run with the headend after it.
#[derive(Clone, Copy)]
struct Run<'a> {
    rt: &'a HostRuntime,
    headend: Headend,
}

impl<'a> Run<'a> {
    // Three numbers, as the paper's call takes them: each line of the run below says them so.
    fn request(self, sid: u32, size: u32, first: u32) -> Result<Run<'a>, Failed> {
        let Run { rt, headend } = self;
        let taking = headend.request(sid, size, MiniSlot(first));
        let numbers = [sid, size, first];
        let asked = Said(b"request", &numbers);
        match taking.answer {
            Ok(()) => tell(rt, asked, Said(b" taken", &[]))?,
            Err(why) => tell_refused(rt, asked, why)?,
        }
        Ok(Run {
            rt,
            headend: taking.headend,
        })
    }

    // Into the lent room.
    fn issue(self, ack: u32, c: u32, budget: u32, room: &mut [u8]) -> Result<Run<'a>, Failed> {
        let Run { rt, headend } = self;
        let issuing = issuing::issue(headend, MiniSlot(ack), c, budget, room);
        let numbers = [ack, c, budget];
        let asked = Said(b"issue", &numbers);
        match issuing.answer {
            Ok(size) => tell(rt, asked, Said(b" size", &[size]))?,
            Err(why) => tell_refused(rt, asked, why)?,
        }
        Ok(Run {
            rt,
            headend: issuing.headend,
        })
    }

    // .. with the bytes that stand in a room of so many then.
    fn issue_in<const ROOM: usize>(self, ack: u32, c: u32, budget: u32) -> Result<Run<'a>, Failed>
        requires { ROOM ≤ 28 }
    {
        let mut room = [0xAAu8; ROOM];
        let after = self.issue(ack, c, budget, &mut room)?;
        tell_hex(after.rt, &room)?;
        Ok(after)
    }

    // 64 requests, and no word about them.
    fn filled(mut self) -> Run<'a> {
        for sid in 1..=64 {
            self.headend = self.headend.request(sid, 1, MiniSlot(975)).headend;
        }
        self
    }

    fn fresh(self) -> Result<(), Failed> {
        self.request(5, 24, 959)?;
        self.request(5, 24, 960)?;
        self.request(5, 24, 961)?;
        self.issue_in::<24>(959, 10, 10)?;
        self.issue_in::<24>(961, 10, 10)?;
        Ok(())
    }

    // The requests of a full table; once some are granted, their room is used again.
    fn full(self) -> Result<(), Failed> {
        let full = self.filled();
        full.request(65, 1, 975)?;
        full.request(5, 1, 975)?;
        let mut room = [0u8; 280];
        full.issue(980, 6, 30, &mut room)?.request(65, 1, 981)?;
        Ok(())
    }

    fn bad_plans(self) -> Result<(), Failed> {
        self.issue_in::<28>(980, 6, 4097)?;
        self.issue_in::<28>(980, 0, 30)?;
        self.issue_in::<28>(980, 31, 30)?;
        Ok(())
    }

    // Both counters roll over.
    fn rolled(self) -> Result<(), Failed> {
        let after = self.issue_in::<24>(4294967290, 10, 10)?;
        let after = after.request(7, 3, 4294967295)?;
        after.issue_in::<28>(4, 6, 30)?;
        Ok(())
    }

    fn issues(self) -> Result<(), Failed> {
        self.fresh()?;
        let after = self.issue_in::<24>(960, 10, 10)?;
        let after = after.issue_in::<24>(960, 30, 30)?;
        after.full()?;
        let after = after.request(5, 24, 975)?;
        after.request(5, 24, 976)?;
        // The room is one byte short, and stays as it was.
        after.issue_in::<27>(980, 6, 30)?;
        after.bad_plans()?;
        after.issue_in::<28>(980, 6, 30)?;
        after.issue_in::<28>(980, 6, 29)?;
        Ok(())
    }
}

// Once a line could not be told, no other is.
fn told(rt: &HostRuntime) -> Result<(), Failed> {
    if let Some(run) = set_up(rt, 960, 6)? {
        run.issues()?;
    }
    if let Some(run) = set_up(rt, 4294967290, 6)? {
        run.rolled()?;
    }
    set_up(rt, 960, 1)?;
    Ok(())
}

// A failure was said, and makes no exit status.
fn main(rt: HostRuntime) {
    let _ = told(&rt);
}
