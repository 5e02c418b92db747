// The words that begin a call.
use crate::bad::Bad;

#[derive(Clone, Copy, PartialEq, Eq)]
pub enum Word {
    Read,
    After,
    Write,
    Grant,
    Begins,
    Earlier,
    Span,
    Station,
    Record,
    Show,
    Offer,
    Hear,
    Table,
    Headend,
    Holding,
    Held,
    Request,
    Issue,
}

impl<'a> TryFrom<&'a [u8]> for Word {
    type Error = Bad;

    fn try_from(token: &'a [u8]) -> Result<Word, Bad> {
        Ok(match token {
            b"read" => Word::Read,
            b"after" => Word::After,
            b"write" => Word::Write,
            b"grant" => Word::Grant,
            b"begins" => Word::Begins,
            b"earlier" => Word::Earlier,
            b"span" => Word::Span,
            b"station" => Word::Station,
            b"record" => Word::Record,
            b"show" => Word::Show,
            b"offer" => Word::Offer,
            b"hear" => Word::Hear,
            b"table" => Word::Table,
            b"headend" => Word::Headend,
            b"holding" => Word::Holding,
            b"held" => Word::Held,
            b"request" => Word::Request,
            b"issue" => Word::Issue,
            _ => return Err(Bad),
        })
    }
}
