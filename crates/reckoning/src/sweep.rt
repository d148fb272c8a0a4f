// The second reader. It goes over the words once, one by one, and keeps the gravest complaint about the record
// that it is in; it decides where the record is whole. The numbers are picked out of an accepted file by their places.
ghost use Rattle.std.specs.Prelude.{◌≡◌, ◌/◌, ◌%◌, ◌≤◌, IfOk, true, is_some, slice_index};
ghost use Rattle.std.specs.Range.{range_inclusive_start, range_inclusive_end};

use crate::outcome::{Numbers, Outcome};
use crate::rule::{Complaint, Rule};
use plan::{Channel, Task};
use std::alloc::{AllocError, Global};
use std::ops::RangeInclusive;

// The parts of a plan file, by the kinds of the words that open them. They are not `words::Kind`, since the second reader
// shares no step with the first, only the form of the answer.
#[derive(Clone, Copy, PartialEq, Eq)]
enum Part {
    Machine = 1,
    Regions = 2,
    Task = 3,
    Channel = 4,
    End = 7,
}

// A word that opens no part.
#[derive(Drop)]
struct NoPart;

impl TryFrom<u32> for Part {
    type Error = NoPart;

    fn try_from(word: u32) -> Result<Part, NoPart> {
        match kind(word) {
            1 => Ok(Part::Machine),
            2 => Ok(Part::Regions),
            3 => Ok(Part::Task),
            4 => Ok(Part::Channel),
            7 => Ok(Part::End),
            _ => Err(NoPart),
        }
    }
}

impl Part {
    // Whether it may stand behind the part before it.
    fn follows(self, before: Option<Part>) -> bool {
        match self {
            Part::Machine => before.is_none(),
            Part::Regions => before == Some(Part::Machine),
            Part::Task => matches!(before, Some(Part::Regions | Part::Task)),
            Part::Channel | Part::End => matches!(before, Some(Part::Task | Part::Channel)),
        }
    }

    // How many words are due after its first, which has this number.
    fn width(self, number: u32) -> u32 {
        match self {
            Part::Machine => 3,
            Part::Regions => number,
            Part::Task | Part::Channel => 1,
            Part::End => 0,
        }
    }

    // What the number may be that stands so many words after the part's first.
    fn range(self, offset: usize) -> RangeInclusive<u32>
        ensures { range_inclusive_start result ≤ range_inclusive_end result }
    {
        match (self, offset) {
            (Part::Machine, 0) => 1..=8,
            (Part::Machine, 1) => 1..=100,
            (Part::Machine, 2) => 1..=256,
            (Part::Machine, _) => 1..=1_048_576,
            (Part::Regions, 0) => 1..=8,
            (Part::Regions, _) => 1..=1_048_576,
            (Part::Task, 0) => 1..=1_000_000,
            (Part::Task, _) => 0..=65_535,
            (Part::Channel, 0) => 1..=4_096,
            (Part::Channel, _) => 0..=4_095,
            (Part::End, _) => 0..=0x1fff_ffff,
        }
    }
}

const FIRST_REGION: usize = 5;

fn kind(word: u32) -> u32
    ensures { result ≡ word / 536870912 }
{
    word / 0x2000_0000
}

fn number(word: u32) -> u32
    ensures { result ≡ word % 536870912 }
{
    word % 0x2000_0000
}

// The tasks of a channel's pair.
fn ends(pair: u32) -> (u32, u32)
    ensures { result ≡ (pair / 64, pair % 64) }
{
    (pair >> 6, pair & 63)
}

// The number of the word at this place, 0 past the end of the file.
fn number_at(words: &[u32], place: usize) -> u32
    ensures { result ≡ slice_index words.now place % 536870912 }
{
    words.get(place).map_or(0, |word| number(*word))
}

// A record that has begun, and how many more words are due of it.
#[derive(Clone, Copy)]
struct Record {
    part: Part,
    opened: usize,
    due: u32,
}

// Where the sweep stands: in which record, and what it counted before.
#[derive(Drop)]
struct Sweep<'a> {
    words: &'a [u32],
    record: Option<Record>,
    gravest: Option<Complaint>,
    region_bytes: u64,
    tasks: u32,
    channels: u32,
}

impl Sweep<'_> {
    fn complain(&mut self, rule: Rule, place: usize)
        ensures { is_some self.new.gravest ≡ true }
    {
        let complaint = rule.at(place);
        let gravest = self.gravest;
        self.gravest = Some(gravest.map_or(complaint, |before| before.min(complaint)));
    }

    // The record that this word opens behind the one before.
    fn open(&mut self, place: usize, word: u32) -> Result<Record, Complaint>
        ensures { IfOk result (λ r. r.opened ≡ place) }
    {
        let before = self.record.map(|record| record.part);
        let part = Part::try_from(word)
            .ok()
            .filter(|part| part.follows(before))
            .ok_or(Rule::Misplaced.at(place))?;
        match part {
            Part::Task => self.tasks = self.tasks.saturating_add(1),
            Part::Channel => self.channels = self.channels.saturating_add(1),
            Part::Machine | Part::Regions | Part::End => {}
        }
        Ok(Record {
            part,
            opened: place,
            due: part.width(number(word)),
        })
    }

    // The rules about the record as a whole, at its last word.
    fn close(&mut self, record: Record, place: usize, last: u32) {
        match record.part {
            Part::Machine => {}
            Part::Regions => {
                if self.region_bytes > u64::from(number_at(self.words, 3)) {
                    self.complain(Rule::Overfull, record.opened);
                }
            }
            Part::Task => {
                if self.tasks > 64 {
                    self.complain(Rule::TooMany, record.opened);
                }
            }
            Part::Channel => {
                if self.channels > 256 {
                    self.complain(Rule::TooMany, record.opened);
                }
                let (from, to) = ends(last);
                if from >= to || to >= self.tasks {
                    self.complain(Rule::Pair, place);
                }
            }
            Part::End => {
                if last as usize != place || place + 1 != self.words.len() {
                    self.complain(Rule::End, place);
                }
            }
        }
    }

    // The word at this place, the places before it done.
    fn word(&mut self, place: usize, word: u32) -> Result<(), Complaint> {
        let number = number(word);
        let record = match self.record {
            Some(Record { part, opened, due }) if due > 0 => {
                if kind(word) != 0 {
                    self.complain(Rule::Misplaced, place);
                }
                Record {
                    part,
                    opened,
                    due: due - 1,
                }
            }
            _ => self.open(place, word)?,
        };
        self.record = Some(record);
        let offset = place.saturating_sub(record.opened);
        if !record.part.range(offset).contains(&number) {
            self.complain(Rule::Range, place);
        }
        if record.part == Part::Regions && offset > 0 {
            self.region_bytes = self.region_bytes.saturating_add(u64::from(number));
        }
        if record.due > 0 {
            return Ok(());
        }
        self.close(record, place, number);
        self.gravest.map_or(Ok(()), Err)
    }

    // The end is reached only where no word is left.
    fn end(&self) -> Result<(), Complaint> {
        match self.record {
            Some(record) if record.part == Part::End => Ok(()),
            _ => Err(Rule::Ended.at(self.words.len())),
        }
    }
}

// Why the words are no plan, if they are none.
fn judge(words: &[u32]) -> Result<(), Complaint> {
    let mut sweep = Sweep {
        words,
        record: None,
        gravest: None,
        region_bytes: 0,
        tasks: 0,
        channels: 0,
    };
    for (place, word) in words.iter().enumerate() {
        sweep.word(place, *word)?;
    }
    sweep.end()
}

// The numbers of a file that is a plan.
fn numbers(heap: Global, words: &[u32]) -> Result<Numbers, AllocError> {
    let count = number_at(words, FIRST_REGION - 1) as usize;
    let sizes = words.iter().skip(FIRST_REGION).take(count);
    let mut tasks = Vec::new(heap);
    let mut channels = Vec::new(heap);
    for (opening, next) in words.iter().zip(words.iter().skip(1)) {
        let (first, second) = (number(*opening), number(*next));
        match Part::try_from(*opening) {
            Ok(Part::Task) => tasks.push(Task {
                limit: first,
                local: second,
            })?,
            Ok(Part::Channel) => {
                let (from, to) = ends(second);
                channels.push(Channel {
                    from: from as usize,
                    to: to as usize,
                    bytes: first,
                })?;
            }
            _ => {}
        }
    }
    Ok(Numbers {
        cores: number_at(words, 0),
        slot_time: number_at(words, 1),
        slot_load: number_at(words, 2),
        scratchpad: number_at(words, 3),
        regions: sizes.map(|size| number(*size)).collect(heap)?,
        tasks,
        channels,
    })
}

// What the second reader answers.
pub(crate) fn second(heap: Global, words: &[u32]) -> Result<Outcome, AllocError> {
    match judge(words) {
        Ok(()) => Ok(Ok(numbers(heap, words)?)),
        Err(complaint) => Ok(Err(complaint.into())),
    }
}
