// A lent table of stations that hear one MAP, record by record.
ghost use Rattle.std.specs.Prelude.{◌≡◌};
ghost use Rattle.lent.specs.Table.{table_fault, number_in, placed_of, HearsTable};

use hearing::{Answer, hear};
use rules::{Reason, Refusal};
use slots::MiniSlot;
use station::Station;

// A record after its hearing, and what its place takes: a number, as the paper has it. A further place stays
// as it came, whatever it holds, so that no Option could say it.
#[derive(Clone, Copy, PartialEq, Eq)]
pub(crate) struct Placed {
    pub station: Station,
    pub number: u32,
}

// The table's own refusal.
fn table_fault(records: usize, draws: usize, places: usize) -> Result<(), Reason>
    ensures { result ≡ table_fault records draws places }
{
    if Station::LARGEST_TABLE < records {
        return Err(Reason::Size);
    }
    if draws < records {
        return Err(Reason::Size);
    }
    if places < records {
        return Err(Reason::Size);
    }
    Ok(())
}

fn number_in(answer: Result<Answer, Refusal>) -> u32
    ensures { result ≡ number_in answer }
{
    match answer {
        Ok(_) => 0,
        Err(why) => why.reason.number(),
    }
}

fn heard(st: Station, bytes: &[u8], present: MiniSlot, draw: u16) -> Placed
    ensures { result ≡ placed_of st bytes.now present.0 draw }
{
    let h = hear(st, bytes, present, draw);
    Placed {
        station: h.station,
        number: number_in(h.answer),
    }
}

// Records, draws and places are lent apart, as the paper has the call.
pub fn hear_table(
    table: &mut [Station],
    bytes: &[u8],
    present: MiniSlot,
    draws: &[u16],
    places: &mut [u32],
) -> Result<(), Reason>
    ensures { HearsTable bytes.now present.0 draws.now table.old places.old table.new places.new result }
{
    table_fault(table.len(), draws.len(), places.len())?;
    for i in 0..table.len() {
        let h = heard(table[i], bytes, present, draws[i]);
        table[i] = h.station;
        places[i] = h.number;
    }
    Ok(())
}
