// Forty records by value, of which a part is lent as a table: the number is document 01's, and the memory is
// fixed. The places take numbers, as those of `hear_table`.
ghost use Rattle.std.specs.Prelude.{◌≡◌};
ghost use Rattle.lent.specs.Forty.{window_of, HearsForty};

use crate::table::hear_table;
use rules::Reason;
use slots::MiniSlot;
use station::Station;

#[derive(Clone, Copy)]
pub struct Forty {
    pub answer: Result<(), Reason>,
    pub stations: [Station; 40],
}

// The part that is lent, by the names that `window_of` of specs/Forty.antt has for its ends. Where it would not lie within the forty, all of them are, which is too large a table.
#[derive(Clone, Copy)]
pub(crate) struct Window {
    pub from: usize,
    pub to: usize,
}

fn part_of(first: usize, count: usize) -> Window
    ensures { result ≡ window_of first count }
{
    if 40 < first {
        return Window { from: 0, to: 40 };
    }
    if 40 - first < count {
        return Window { from: 0, to: 40 };
    }
    Window {
        from: first,
        to: first + count,
    }
}

pub fn hear_forty(
    stations: [Station; 40],
    first: usize,
    count: usize,
    bytes: &[u8],
    present: MiniSlot,
    draws: &[u16],
    places: &mut [u32],
) -> Forty
    ensures { HearsForty bytes.now present.0 draws.now (window_of first count) stations places.old places.new result }
{
    let mut all = stations;
    let Window { from, to } = part_of(first, count);
    let answer = hear_table(&mut all[from..to], bytes, present, draws, places);
    Forty {
        answer,
        stations: all,
    }
}
