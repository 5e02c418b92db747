// The second and the third step of an accepted MAP on a station's phase.
ghost use Rattle.std.specs.Prelude.{◌≡◌};
ghost use Rattle.backoff.specs.Steps.{lost, acknowledged, deferred};

use crate::backoff::{drawn, next_exponent};
use rules::Fields;
use station::{Phase, Station};

// `fields` and `draw` go through these steps as `ready_phase` is given them: a struct of the two would be
// made for that one call.

// A request was lost: back off further, unless that was the last retry. The numbers come as the one arm that
// calls it takes them out of a phase.
fn after_loss(fields: Fields, draw: u16, exponent: u32, retries: u32, size: u32) -> Phase
    ensures { result ≡ lost fields draw exponent retries size }
{
    if Station::MOST_RETRIES <= retries {
        return Phase::Idle;
    }
    let next = next_exponent(fields, exponent);
    Phase::Deferring {
        exponent: next,
        left: drawn(draw, next),
        retries: retries + 1,
        size,
    }
}

// 2. Waiting, without a grant.
fn after_ack(pending: bool, fields: Fields, draw: u16, phase: Phase) -> Phase
    ensures { result ≡ acknowledged 32 pending fields draw phase }
{
    match phase {
        Phase::Waiting {
            exponent,
            retries,
            time,
            size,
        } => {
            if pending {
                return phase;
            }
            if time.earlier(fields.ack) {
                return after_loss(fields, draw, exponent, retries, size);
            }
            phase
        }
        _ => phase,
    }
}

// 3. Wanting becomes Deferring.
fn after_wanting(fields: Fields, draw: u16, phase: Phase) -> Phase
    ensures { result ≡ deferred fields draw phase }
{
    match phase {
        Phase::Wanting { size } => {
            let exponent = fields.data.start as u32;
            Phase::Deferring {
                exponent,
                left: drawn(draw, exponent),
                retries: 0,
                size,
            }
        }
        _ => phase,
    }
}

// The phase before step 4, where there is no grant.
pub fn ready_phase(pending: bool, fields: Fields, draw: u16, phase: Phase) -> Phase
    ensures { result ≡ deferred fields draw (acknowledged 32 pending fields draw phase) }
{
    after_wanting(fields, draw, after_ack(pending, fields, draw, phase))
}
