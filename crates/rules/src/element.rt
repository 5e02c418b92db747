// An information element: a SID, a use (IUC) and an offset.
ghost use Rattle.std.specs.Prelude.{◌≡◌};
ghost use Rattle.rules.specs.Rules.{grants_sid};

use crate::rules::granting;

// A use is the number that stands in the message, and no enum: a reader answers with any of the 16
// (`element_at` of message), and a number that is no use is for the rules to refuse (5).
#[derive(Clone, Copy, PartialEq, Eq)]
pub struct Element {
    pub sid: u32,
    pub iuc: u32,
    pub offset: u32,
}

impl Element {
    pub const MOST: usize = 240;

    pub const LONGEST_MAP: u32 = 4096;

    pub const LONGEST_GRANT: u64 = 255;

    // A grant, or a pending, to a SID.
    pub fn grants_sid(self, sid: u32) -> bool
        ensures { result ≡ grants_sid self sid }
    {
        granting(self.iuc) & (self.sid == sid)
    }
}
