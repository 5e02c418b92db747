// The part of the caller's own bytes that follows the Null: acknowledgements and pendings.
ghost use Rattle.std.specs.Prelude.{◌≡◌, ◌+◌, ◌*◌, min, length, drop};
ghost use Rattle.message.specs.After.{after_null_of, start_after, after_null_at, PartAt};

use crate::reading::{Reading, read};

// The bytes from a place on; none where they end before it.
fn part_from(bytes: &[u8], at: usize) -> &[u8]
    ensures { (result.now ≡ drop at bytes.now) × PartAt (min at (length bytes.now)) bytes.entry.ref_ptr result.ref_ptr }
{
    if bytes.len() <= at {
        let end = bytes.len();
        return &bytes[end..];
    }
    &bytes[at..]
}

impl Reading {
    // Of a message that was read before: no second pass.
    pub fn after_null(self, bytes: &[u8]) -> &[u8]
        ensures { (result.now ≡ drop (20 + 4 * self.null) bytes.now) × PartAt (start_after self.null bytes.now) bytes.entry.ref_ptr result.ref_ptr }
    {
        part_from(bytes, 20 + 4 * (self.null as usize))
    }
}

// Empty where nothing follows, or the message is refused.
pub fn after_null(bytes: &[u8]) -> &[u8]
    ensures { (result.now ≡ after_null_of bytes.now) × PartAt (after_null_at bytes.now) bytes.entry.ref_ptr result.ref_ptr }
{
    match read(bytes) {
        Ok(reading) => reading.after_null(bytes),
        Err(_) => part_from(bytes, bytes.len()),
    }
}
