// Reading: a read that fails is told from the end of the input.
ghost use Rattle.stream.specs.Reading.{Inside, Quiet, Came, CameWhole};

use crate::telling::{Failed, fail};
use std::io::{Read, Write};

// How many bytes one read brought into the front of the lent ones, for an input that is worked as
// it comes; none where the input has ended.
pub fn some<R: Read, E: Write>(
    from: &mut R,
    errors: &mut E,
    name: &[u8],
    input: &mut [u8],
) -> Result<usize, Failed>
    ensures within { Inside result input.new }
    ensures bytes { Came (R.remaining from.old) (R.remaining from.new) result input.new }
    ensures quiet { Quiet result errors.old errors.new }
{
    // No map_err: the check then loses that `errors`, which its closure has, is as it was.
    match from.read(input) {
        Ok(n) => Ok(n),
        Err(why) => Err(fail(errors, name, &why)),
    }
}

// Reads until the lent bytes are full or the input ends, also from a pipe that trickles. `at` is no
// index of a `for`: it moves on by what a read brings.
#[tactic(auto, using(crate::proofs::Within::came_more))]
pub fn whole<R: Read, E: Write>(
    from: &mut R,
    errors: &mut E,
    name: &[u8],
    input: &mut [u8],
) -> Result<usize, Failed>
    ensures within { Inside result input.new }
    ensures bytes { CameWhole (R.remaining from.old) (R.remaining from.new) result input.new }
    ensures quiet { Quiet result errors.old errors.new }
{
    let mut at = 0;
    while at < input.len() {
        let n = some(from, errors, name, &mut input[at..])?;
        if n == 0 {
            break;
        }
        at += n;
    }
    Ok(at)
}
