// A refusal in one number, for C.
ghost use Rattle.std.specs.Prelude.{◌≡◌};
ghost use Rattle.firmware.specs.Codes.{code_of};

use rules::Refusal;

// The number in the low byte, the element in the next. A function, here and in layout.rt: a `From` would be
// for types of others.
pub(crate) fn code_of(why: Refusal) -> u32
    ensures { result ≡ code_of why }
{
    why.reason.number() % 256 + 256 * (why.element % 256)
}
