// What is wrong with a line that is no call, of which nothing more is said.
use std::array::TryFromSliceError;
use std::num::TryFromIntError;

#[derive(Clone, Copy, Debug)]
pub struct Bad;

// A number out of its range.
impl From<TryFromIntError> for Bad {
    fn from(_: TryFromIntError) -> Bad {
        Bad
    }
}

// Too many numbers, or too few.
impl From<TryFromSliceError> for Bad {
    fn from(_: TryFromSliceError) -> Bad {
        Bad
    }
}
