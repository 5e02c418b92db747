// Why a read or a write failed, in the C library's words alone: std's Display puts the number behind
// them.
use crate::text::Text;
use std::fmt::Write;
use std::io::Error;

// The longest text of the C library is 256 bytes, and what stands behind it at most 24.
pub(crate) const ROOM: usize = 320;

// The reason, put into the lent bytes; nothing, where it had no room.
pub(crate) fn reason<'a>(why: &Error, room: &'a mut [u8]) -> &'a [u8] {
    let mut text = Text::new(room);
    let _ = write!(text, "{why}");
    let Text { bytes, used } = text;
    let Some(said) = bytes.get(..used) else {
        return b"";
    };
    if why.raw_os_error().is_some() {
        return before_number(said);
    }
    said
}

// What stands before ` (os error NUMBER)`.
fn before_number(text: &[u8]) -> &[u8] {
    match text.iter().rposition(|b| *b == b'(') {
        Some(at) if 0 < at => &text[..at - 1],
        _ => text,
    }
}
