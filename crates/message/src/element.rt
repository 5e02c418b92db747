// An information element in a message: SID 14 bits, use (IUC) 4 bits, offset 14 bits.
ghost use Rattle.std.specs.Prelude.{◌≡◌, ◌+◌, ◌*◌, ◌/◌, ◌%◌, ◌≤◌, ◌<◌, length};
ghost use Rattle.message.specs.Element.{word_at, element_of, element_in, element_at};

use rules::Element;

const ZERO: Element = Element {
    sid: 0,
    iuc: 0,
    offset: 0,
};

// The i-th element of a message; all zero where the bytes end before it does.
pub fn element_at(bytes: &[u8], i: usize) -> Element
    ensures { result ≡ element_at bytes.now i }
{
    if bytes.len() < 20 {
        return ZERO;
    }
    if (bytes.len() - 20) / 4 < i {
        return ZERO;
    }
    element_in(bytes, i)
}

// The i-th element, which is there.
pub(crate) fn element_in(bytes: &[u8], i: usize) -> Element
    requires { 20 + 4 * i ≤ length bytes.now }
    ensures { result ≡ element_in bytes.now i }
{
    element_of(word_at(bytes, 16 + 4 * i))
}

fn element_of(word: u32) -> Element
    ensures { result ≡ element_of word }
{
    Element {
        sid: word / 262144,
        iuc: word / 16384 % 16,
        offset: word % 16384,
    }
}

// Four bytes, most significant first, taken straight from the lent bytes: no array on the way (docs/requests/R-3.md),
// which `from_be_bytes` would ask for. They are put together the other way round and then turned: the compiler makes one
// load of the one and one instruction of the other, and neither of the sum that they come to.
pub(crate) fn word_at(bytes: &[u8], at: usize) -> u32
    requires { at + 4 ≤ length bytes.now }
    ensures { result ≡ word_at bytes.now at }
{
    turned(least_first(bytes[at], bytes[at + 1], bytes[at + 2], bytes[at + 3]))
}

fn least_first(first: u8, second: u8, third: u8, fourth: u8) -> u32
    ensures { (result % 256 ≡ first) × ((result / 256 % 256 ≡ second) × ((result / 65536 % 256 ≡ third) × (result / 16777216 ≡ fourth))) }
{
    u32::from(first)
        + u32::from(second) * 256
        + u32::from(third) * 65536
        + u32::from(fourth) * 16777216
}

fn turned(word: u32) -> u32
    ensures { result ≡ word % 256 * 16777216 + word / 256 % 256 * 65536 + word / 65536 % 256 * 256 + word / 16777216 }
{
    word % 256 * 16777216 + word / 256 % 256 * 65536 + word / 65536 % 256 * 256 + word / 16777216
}
