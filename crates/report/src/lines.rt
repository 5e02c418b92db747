// The report's lines, put into lent bytes one after the other.
ghost use Rattle.std.specs.Prelude.{◌≡◌, ◌+◌, ◌≤◌, length};
ghost use Rattle.report.specs.Text.{field_of, fields_of, line_of, map_line, refused_line, span_line};
ghost use Rattle.report.specs.Scan.{HasRoom, Put};

use crate::bodies::Row;
use rules::Reason;
use slots::Span;

// The lent bytes, and how many of them the lines so far take, as there is no telling of the bytes alone. Not
// the `Text` of stream, which report doesn't
// lean on: a text may lack room and says so at its end; a line here has room, by a clause.
#[derive(Drop)]
pub(crate) struct Lines<'a> {
    out: &'a mut [u8],
    pub(crate) used: usize,
}

impl<'a> Lines<'a> {
    pub(crate) fn new(out: &'a mut [u8]) -> Lines<'a>
        ensures same { result.out.ghost_name ≡ out.entry.ghost_name }
        ensures out { result.out.now ≡ out.old }
        ensures used { result.used ≡ 0 }
    {
        Lines { out, used: 0 }
    }

    pub(crate) fn put(&mut self, text: &[u8])
        requires { HasRoom self.old text.now }
        ensures { Put text.now self.old self.new }
    {
        let end = self.used + text.len();
        self.out[self.used..end].copy_from_slice(text);
        self.used = end;
    }

    // One space, and a number.
    fn field(&mut self, n: u64)
        requires { HasRoom self.old (field_of n) }
        ensures { Put (field_of n) self.old self.new }
    {
        let mut digits = [0u8; 20];
        let k = io::decimal(n, &mut digits);
        self.put(b" ");
        self.put(&digits[..k]);
    }

    fn fields(&mut self, numbers: &[u64])
        requires { HasRoom self.old (fields_of numbers.now) }
        ensures { Put (fields_of numbers.now) self.old self.new }
    {
        for n in numbers {
            self.field(*n);
        }
    }

    fn line(&mut self, word: &[u8], numbers: &[u64])
        requires { HasRoom self.old (line_of word.now numbers.now) }
        ensures { Put (line_of word.now numbers.now) self.old self.new }
    {
        self.put(word);
        self.fields(numbers);
        self.put(b"\n");
    }

    // The number of a MAP, its start, its end and how many elements it has.
    pub(crate) fn map(&mut self, number: u32, row: Row)
        requires { HasRoom self.old (map_line number row) }
        ensures { Put (map_line number row) self.old self.new }
    {
        let start = row.start;
        let end = start.moved_on(row.length);
        let numbers = [
            u64::from(number),
            u64::from(start.0),
            u64::from(end.0),
            u64::from(row.n),
        ];
        self.line(b"map", &numbers);
    }

    pub(crate) fn refused(&mut self, number: u32, why: Reason)
        requires { HasRoom self.old (refused_line number why) }
        ensures { Put (refused_line number why) self.old self.new }
    {
        self.line(b"refused", &[u64::from(number), u64::from(why.number())]);
    }

    pub(crate) fn span(&mut self, span: Span)
        requires { HasRoom self.old (span_line span) }
        ensures { Put (span_line span) self.old self.new }
    {
        match span {
            Span::Over { earliest, latest } => {
                self.line(b"span", &[u64::from(earliest.0), u64::from(latest.0)]);
            }
            Span::Nothing | Span::Lost => self.put(b"span none\n"),
        }
    }
}
