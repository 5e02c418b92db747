// A MAP that was read and accepted: its bytes, and what was read of them.
ghost use Rattle.std.specs.Prelude.{◌≡◌, Ok};
ghost use Rattle.message.specs.Element.{element_at};
ghost use Rattle.message.specs.Reading.{read_of};

use message::{Reading, element_at};
use rules::Element;

#[derive(Clone, Copy)]
pub(crate) struct Map<'a> {
    pub(crate) bytes: &'a [u8],
    pub(crate) reading: Reading,
    ghost accepted: { read_of bytes.now ≡ Ok reading },
}

impl Map<'_> {
    pub(crate) fn element(self, i: u32) -> Element
        ensures { result ≡ element_at self.entry.bytes.now i }
    {
        element_at(self.bytes, i as usize)
    }
}
