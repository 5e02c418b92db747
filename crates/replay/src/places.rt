// The numbered places, which keep stations and headends from call to call.
use crate::bad::Bad;
use crate::line::Line;
use crate::words::Word;
use crate::{headends, messages, stations, tables};
use headend::Headend;
use station::Station;
use stream::Text;

// As many as docs/REPLAY.md numbers.
#[derive(Drop)]
pub struct Places {
    stations: [Station; 40],
    headends: [Headend; 4],
}

impl Places {
    pub fn new() -> Places {
        Places {
            stations: [stations::untouched(); 40],
            headends: [headends::untouched(); 4],
        }
    }

    // An arm a word, and each call takes what it needs: a table of functions would have one type for all.
    pub fn call(&mut self, line: Line, out: &mut Text) -> Result<(), Bad> {
        match line.word {
            Word::Read => messages::read(line.numbers, line.hex()?, out),
            Word::After => messages::after(line.numbers, line.hex()?, out),
            Word::Grant => messages::grant(line.numbers, line.hex()?, out),
            Word::Write => messages::write(line.alone()?, out),
            Word::Begins => messages::begins(line.alone()?, out),
            Word::Earlier => messages::earlier(line.alone()?, out),
            Word::Span => messages::span(line.alone()?, out),
            Word::Station => stations::set_up(&mut self.stations, line.alone()?, out),
            Word::Record => stations::record(&mut self.stations, line.alone()?, out),
            Word::Show => stations::show(&mut self.stations, line.alone()?, out),
            Word::Offer => stations::offer(&mut self.stations, line.alone()?, out),
            Word::Hear => stations::hear(&mut self.stations, line.numbers, line.hex()?, out),
            Word::Table => tables::hear(&mut self.stations, line.numbers, line.hex()?, out),
            Word::Headend => headends::set_up(&mut self.headends, line.alone()?, out),
            Word::Holding => headends::holding(&mut self.headends, line.alone()?, out),
            Word::Held => headends::held(&mut self.headends, line.alone()?, out),
            Word::Request => headends::request(&mut self.headends, line.alone()?, out),
            Word::Issue => headends::issue(&mut self.headends, line.alone()?, out),
        }
    }
}
