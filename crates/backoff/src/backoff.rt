// The backoff window: which exponent, and how many opportunities to pass.
ghost use Rattle.std.specs.Prelude.{◌≡◌};
ghost use Rattle.backoff.specs.Backoffs.{next_exponent, drawn};

use rules::Fields;
use station::Station;

// After a loss.
pub(crate) fn next_exponent(fields: Fields, exponent: u32) -> u32
    ensures { result ≡ next_exponent fields exponent }
{
    exponent.saturating_add(1).min(fields.data.end as u32)
}

// A draw has 16 bits: by 2^16 and more it is its own remainder, and the shift stays within 32 bits.
pub(crate) fn drawn(draw: u16, exponent: u32) -> u32
    ensures { result ≡ drawn draw exponent }
{
    if Station::LARGEST_EXPONENT < exponent {
        return draw as u32;
    }
    (draw as u32) % (1u32 << exponent)
}
