// Reads a file by the rules of its kind: each record is taken, checked and gathered, and the first refusal stands.
ghost use Rattle.std.specs.Prelude.{◌≡◌, ℕ, Ok, Err, MatchResult};
ghost use Rattle.words.specs.Records.{end};
ghost use Rattle.words.specs.Seen.{said};
ghost use Rattle.words.specs.declared.fault.Refusal.{Refusal};
ghost use Rattle.board.specs.Files.{Rules, reads};
ghost use Rattle.records.specs.declared.fault.Fault.{Fault as RecordsFault};
ghost use Rattle.records.specs.Gathering.{Comes, Adds};
ghost use Rattle.records.specs.Shown.{shown};

use crate::check::closing;
use crate::fault::Fault;
use crate::found::Found;
use words::{Kind, Reader, Record};

// The rules of a kind of file, and what is gathered from such a file.
pub trait FileRules {
    type Gathered: Drop;

    type Fault: From<Fault>;

    // The rules, what they see of the things gathered, and how a fault is told.
    ghost State: { Type 0 };

    ghost rules: { Self → Rules State };

    ghost state: { Self.Gathered → State };

    ghost told: { Self.Fault → Refusal };

    // The kinds that may open the file.
    fn first(&self) -> &'static [Kind]
        ensures { result.now ≡ (rules self.now).first };

    // What is gathered before the first record.
    fn nothing(&self) -> Self::Gathered
        ensures { state result ≡ (rules self.now).none };

    // One record more, or why it may not stand at its place. After that what was gathered counts no more.
    fn add(&self, so_far: &mut Self::Gathered, found: Found<'_>) -> Result<(), Self::Fault>
        ensures { Adds (rules self.now) told (state so_far.old) found.entry.place (said found.entry.says) result (state so_far.new) };

    // They ask nothing of an end but what every file asks of it.
    ghost ends: { (x : Self) (s : State) (place n : ℕ) → (rules x).why s place (end n) ≡ Ok tt };

    // A fault that comes from below is told as it is told there.
    ghost tells: { (e : RecordsFault) (f : Self.Fault) → Self.Fault.from_gives e f → told f ≡ shown e };
}

// The next record, or none where it is an end, which has to close the file.
fn next<'a>(reader: &mut Reader<'a>, kinds: &[Kind]) -> Result<Option<Found<'a>>, Fault>
    ensures { Comes kinds.now reader.old result reader.new }
{
    let (place, left) = (reader.place(), reader.left());
    match reader.record(kinds)? {
        Record::End { count } => {
            closing(place, count, left)?;
            Ok(None)
        }
        says => Ok(Some(Found { place, says })),
    }
}

// What is gathered from the words of a file, or the first refusal.
pub fn read<R: FileRules>(rules: &R, words: &[u32]) -> Result<R::Gathered, R::Fault>
    ensures { MatchResult result (λ g. reads (R.rules rules.now) words.now ≡ Ok (R.state g)) (λ e. reads (R.rules rules.now) words.now ≡ Err (R.told e)) }
{
    let mut reader = Reader::new(words);
    let mut kinds = rules.first();
    let mut so_far = rules.nothing();
    while let Some(found) = next(&mut reader, kinds)? {
        rules.add(&mut so_far, found)?;
        kinds = found.says.follows();
    }
    Ok(so_far)
}
