// Text put together in lent bytes, of which so many are used. A text that has no room is never cut:
// it leaves the bytes as they were, and `used` over every room for good.
ghost use Rattle.std.specs.Prelude.{◌≡◌};
ghost use Rattle.stream.specs.Text.{Puts, decimal_of, hex_of};

use std::fmt;

// More than any lent bytes: that much `put` promises to be used where it had no room, and no flag.
const TOO_MANY: usize = usize::MAX;

// Lent bytes, of which so many are used: what is put behind them may not fit, so no shorter slice says it.
#[derive(Drop)]
pub struct Text<'a> {
    pub bytes: &'a mut [u8],
    pub used: usize,
}

impl<'a> Text<'a> {
    pub fn new(bytes: &'a mut [u8]) -> Text<'a>
        ensures bytes { result.bytes.now ≡ bytes.old }
        ensures used { result.used ≡ 0 }
        ensures same_reference { result.bytes.ghost_name ≡ bytes.entry.ghost_name }
    {
        Text { bytes, used: 0 }
    }

    #[tactic(auto, using(crate::proofs::Putting::put_in))]
    pub fn put(&mut self, text: &[u8])
        ensures { Puts self.old text.now self.new }
    {
        let from = self.used;
        if self.bytes.len() < from.saturating_add(text.len()) {
            self.used = TOO_MANY;
            return;
        }
        self.bytes[from..from + text.len()].copy_from_slice(text);
        self.used = from + text.len();
    }

    // As `write!` puts a number, with a promise of which digits they are.
    pub fn put_decimal(&mut self, n: u64)
        ensures { Puts self.old (decimal_of n) self.new }
    {
        let mut digits = [0u8; 20];
        let k = io::decimal(n, &mut digits);
        self.put(&digits[..k]);
    }

    pub fn put_hex(&mut self, byte: u8)
        ensures { Puts self.old (hex_of byte) self.new }
    {
        let mut digits = [0u8; 16];
        let k = io::hex(byte as u64, 2, &mut digits);
        self.put(&digits[..k]);
    }
}

impl fmt::Write for Text<'_> {
    ghost write_str_gives = { Puts };

    fn write_str(&mut self, text: &str) -> fmt::Result {
        self.put(text.as_bytes());
        Ok(())
    }
}
