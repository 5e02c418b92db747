// The record lent and changed where it stands, over the by-value steps.
ghost use Rattle.lent.specs.InPlace.{HearsInPlace, OffersInPlace};

use hearing::{Answer, hear};
use rules::Refusal;
use slots::MiniSlot;
use station::Station;

pub fn hear_in_place(
    rec: &mut Station,
    bytes: &[u8],
    present: MiniSlot,
    draw: u16,
) -> Result<Answer, Refusal>
    ensures { HearsInPlace rec.old bytes.now present.0 draw rec.new result }
{
    let h = hear(*rec, bytes, present, draw);
    *rec = h.station;
    h.answer
}

pub fn offer_in_place(rec: &mut Station, size: u32) -> Result<(), Refusal>
    ensures { OffersInPlace rec.old size rec.new result }
{
    let o = rec.offer(size);
    *rec = o.station;
    o.answer
}
