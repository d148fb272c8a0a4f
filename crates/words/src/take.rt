// Takes the records of a file one by one.
ghost use Rattle.std.specs.Prelude.{◌≡◌, length, position, nat_le};
ghost use Rattle.words.specs.Records.{width, saying, follows};
ghost use Rattle.words.specs.Seen.{said, Opens, Follows, Reads};

use crate::fault::Fault;
use crate::kind::{Kind, Opening};
use crate::reader::Reader;
use crate::record::Record;

impl Opening {
    // How many plain words go with it.
    fn width(self) -> usize
        ensures { result ≡ width self }
    {
        match self.kind {
            Kind::Machine => 3,
            Kind::Regions => self.number as usize,
            Kind::Task | Kind::Channel | Kind::Exec | Kind::Transfer => 1,
            Kind::End => 0,
        }
    }

    // What it says with its plain words, which stand at this place.
    fn saying(self, place: usize, fields: &[u32]) -> Record<'_>
        requires { length fields.now ≡ width self }
        ensures { said result ≡ saying self place fields.now }
    {
        let number = self.number;
        match (self.kind, fields) {
            (Kind::Machine, [slot_time, slot_load, scratchpad]) => Record::Machine {
                cores: number,
                slot_time: *slot_time,
                slot_load: *slot_load,
                scratchpad: *scratchpad,
            },
            (Kind::Regions, sizes) => Record::Regions { place, sizes },
            (Kind::Task, [local]) => Record::Task {
                limit: number,
                local: *local,
            },
            (Kind::Channel, [pair]) => Record::Channel {
                bytes: number,
                pair: *pair,
            },
            (Kind::Exec, [seat]) => Record::Exec {
                start: number,
                seat: *seat,
            },
            (Kind::Transfer, [side]) => Record::Transfer {
                start: number,
                side: *side,
            },
            _ => Record::End { count: number },
        }
    }
}

// Where the first word stands that is not plain.
fn first_not_plain(words: &[u32]) -> Option<usize>
    ensures { result ≡ position (λ w. nat_le 536870912 w) words.now }
{
    words.iter().position(|w| *w >= 0x2000_0000)
}

impl<'a> Reader<'a> {
    // The opening word of a record.
    fn opening(&mut self, kinds: &[Kind]) -> Result<Opening, Fault>
        ensures { Opens kinds.now self.old result self.new }
    {
        let place = self.place;
        let [first, rest @ ..] = self.rest else {
            return Err(Fault::Ended { place });
        };
        match Opening::of(*first) {
            Some(opening) if kinds.contains(&opening.kind) => {
                self.place += 1;
                self.rest = rest;
                Ok(opening)
            }
            _ => Err(Fault::Misplaced { place }),
        }
    }

    // The plain words of a record, this many.
    fn fields(&mut self, count: usize) -> Result<&'a [u32], Fault>
        ensures { Follows count self.old result self.new }
    {
        let Some((fields, rest)) = self.rest.split_at_checked(count) else {
            return Err(Fault::Ended {
                place: self.place + self.rest.len(),
            });
        };
        if let Some(i) = first_not_plain(fields) {
            return Err(Fault::Misplaced {
                place: self.place + i,
            });
        }
        self.place += count;
        self.rest = rest;
        Ok(fields)
    }

    // The next record, which one of these kinds must open. A refusal leaves the reader where it is.
    pub fn record(&mut self, kinds: &[Kind]) -> Result<Record<'a>, Fault>
        ensures { Reads kinds.now self.old result self.new }
    {
        let mut ahead = *self;
        let opening = ahead.opening(kinds)?;
        let place = ahead.place;
        let fields = ahead.fields(opening.width())?;
        *self = ahead;
        Ok(opening.saying(place, fields))
    }
}

impl Record<'_> {
    // The kinds that may open the record after it.
    pub fn follows(self) -> &'static [Kind]
        ensures { result.now ≡ follows (said self.entry) }
    {
        match self {
            Record::Machine { .. } => &[Kind::Regions],
            Record::Regions { .. } => &[Kind::Task],
            Record::Task { .. } => &[Kind::Task, Kind::Channel, Kind::End],
            Record::Channel { .. } => &[Kind::Channel, Kind::End],
            Record::Exec { .. } => &[Kind::Exec, Kind::Transfer, Kind::End],
            Record::Transfer { .. } => &[Kind::Transfer, Kind::End],
            Record::End { .. } => &[],
        }
    }
}
