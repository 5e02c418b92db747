// The header's fields in a message.
ghost use Rattle.std.specs.Prelude.{◌≡◌, ◌≤◌, length};
ghost use Rattle.rules.specs.Backoffs.{bad_backoffs};
ghost use Rattle.message.specs.Fields.{fields_of};

use crate::element::word_at;
use rules::{Backoff, Fields};
use slots::MiniSlot;

pub(crate) fn fields_of(bytes: &[u8]) -> Fields
    requires { 16 ≤ length bytes.now }
    ensures { result ≡ fields_of bytes.now }
{
    Fields {
        channel: bytes[0],
        count: bytes[1],
        start: MiniSlot(word_at(bytes, 4)),
        ack: MiniSlot(word_at(bytes, 8)),
        ranging: Backoff {
            start: bytes[12],
            end: bytes[13],
        },
        data: Backoff {
            start: bytes[14],
            end: bytes[15],
        },
    }
}

pub(crate) fn bad_backoffs_in(bytes: &[u8]) -> bool
    requires { 16 ≤ length bytes.now }
    ensures { result ≡ bad_backoffs (fields_of bytes.now) }
{
    fields_of(bytes).bad_backoffs()
}
