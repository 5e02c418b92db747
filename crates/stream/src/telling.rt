// Writing: what can't be written is said on standard error, in one line.
ghost use Rattle.std.specs.Prelude.{◌≡◌, ◌<◌, length, take, IsErr, OnOk};
ghost use Rattle.std.specs.Io.KnownBytes.{Appends};

use crate::reason::{ROOM, reason};
use std::io::{Error, Write};

// A read or a write failed, and that was said.
#[derive(Clone, Copy, Debug, PartialEq, Eq)]
pub struct Failed;

// A failure that has no errno. Where standard error can't be written there is nowhere left to say it.
// `errors` and `name` stay two: each program would make a struct of them for one call.
pub fn complain<E: Write>(errors: &mut E, name: &[u8], why: &[u8]) {
    let _ = errors.write_all(name);
    let _ = errors.write_all(b": ");
    let _ = errors.write_all(why);
    let _ = errors.write_all(b"\n");
}

// .. and one that the system gave a reason for.
pub(crate) fn fail<E: Write>(errors: &mut E, name: &[u8], why: &Error) -> Failed {
    let mut room = [0u8; ROOM];
    complain(errors, name, reason(why, &mut room));
    Failed
}

// Writes all of the text, or says why it can't.
pub fn tell<W: Write, E: Write>(
    to: &mut W,
    errors: &mut E,
    name: &[u8],
    text: &[u8],
) -> Result<(), Failed>
    ensures bytes { OnOk result (Appends (W.contents to.old) (W.contents to.new) text.now) }
    ensures quiet { OnOk result (errors.new ≡ errors.old) }
{
    // No map_err: the check then loses that `errors`, which its closure has, is as it was.
    match to.write_all(text) {
        Ok(()) => Ok(()),
        Err(why) => Err(fail(errors, name, &why)),
    }
}

// .. and of the used bytes of a line; one that had no room is told nowhere. Not of a `Text`, whose bytes are lent to it
// alone: here they are only read.
pub fn tell_line<W: Write, E: Write>(
    to: &mut W,
    errors: &mut E,
    name: &[u8],
    line: &[u8],
    used: usize,
) -> Result<(), Failed>
    ensures no_room { length line.now < used → IsErr result }
    ensures untold { length line.now < used → to.new ≡ to.old }
    ensures bytes { OnOk result (Appends (W.contents to.old) (W.contents to.new) (take used line.now)) }
    ensures quiet { OnOk result (errors.new ≡ errors.old) }
{
    let Some(text) = line.get(..used) else {
        complain(errors, name, b"text too long");
        return Err(Failed);
    };
    tell(to, errors, name, text)
}
