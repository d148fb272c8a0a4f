// The rounds of a trial: which files are damaged, in which ways and at which places.
ghost use Rattle.std.specs.Prelude.{◌<◌};

use crate::damage::{Damage, EDGES, File};
use crate::dice::Dice;
use crate::draft::{Draft, largest, plain, varied, word};
use crate::trial::Trial;
use cases::two_task;
use std::alloc::AllocError;
use std::iter;
use words::Kind;

// The places of a file that are damaged: every `stride`-th from `from` on.
#[derive(Clone, Copy)]
struct Places {
    from: usize,
    stride: usize,
    ghost goes_on: { 0 < stride },
}

impl Places {
    const ALL: Places = Places { from: 0, stride: 1 };

    fn starting(from: usize) -> Places {
        Places { from, stride: 1 }
    }
}

// What may be done to one of two words of a record.
fn spoiled(old: u32) -> [u32; 4] {
    [
        word(old >> 29, 0),
        word(old >> 29, 0x1fff_ffff),
        plain(old),
        word(Kind::End as u32, old),
    ]
}

// A whole file on trial.
#[derive(Drop)]
struct Round<'a> {
    trial: &'a mut Trial,
    file: File<'a>,
}

impl<'a> Round<'a> {
    fn new(trial: &'a mut Trial, words: &'a [u32]) -> Round<'a> {
        let heap = trial.heap();
        Round {
            trial,
            file: File { heap, words },
        }
    }

    // Does this at each of the places, with the word that stands there.
    fn each<F>(&mut self, places: Places, step: F) -> Result<(), AllocError>
    where
        F: Fn(&mut Round<'a>, usize, u32) -> Result<(), AllocError>,
        requires { F.IsAlwaysCallable step }
    {
        let words = self.file.words.iter().enumerate();
        for (place, word) in words.skip(places.from).step_by(places.stride) {
            step(self, place, *word)?;
        }
        Ok(())
    }

    // Tries what is made of the file at each place.
    fn copies<F>(&mut self, damage: Damage, copy: F) -> Result<(), AllocError>
    where
        F: Fn(File<'a>, usize) -> Result<Vec<u32>, AllocError>,
        requires { F.IsAlwaysCallable copy }
    {
        self.each(Places::ALL, |round, place, _| {
            round.trial.file(damage, &copy(round.file, place)?)
        })
    }

    fn everywhere(&mut self) -> Result<(), AllocError> {
        self.trial.file(Damage::Unharmed, self.file.words)?;
        self.each(Places::ALL, |round, place, _| {
            round.trial.file(Damage::Cut, round.file.cut(place))
        })?;
        self.copies(Damage::Removed, File::without)?;
        self.copies(Damage::Doubled, File::doubled)?;
        self.appendings()
    }

    fn appendings(&mut self) -> Result<(), AllocError> {
        let length = u32::try_from(self.file.words.len()).unwrap_or(0);
        for top in 0..8 {
            self.append(&[word(top, length)])?;
            self.append(&[word(top, 1), plain(1)])?;
        }
        self.append(self.file.words)
    }

    fn append(&mut self, more: &[u32]) -> Result<(), AllocError> {
        self.trial
            .file(Damage::Appended, &self.file.with_more(more)?)
    }

    fn at(&mut self, places: Places) -> Result<(), AllocError> {
        self.each(places, Round::kinds)?;
        self.each(places, Round::numbers)?;
        self.each(places, Round::twos)
    }

    // Another word at this place.
    fn other(&mut self, damage: Damage, place: usize, word: u32) -> Result<(), AllocError> {
        self.trial.file(damage, &self.file.with_word(place, word)?)
    }

    fn kinds(&mut self, place: usize, old: u32) -> Result<(), AllocError> {
        for top in (0..8).filter(|top| *top != old >> 29) {
            self.other(Damage::OtherKind, place, word(top, old))?;
        }
        Ok(())
    }

    fn numbers(&mut self, place: usize, old: u32) -> Result<(), AllocError> {
        let beside = [old.wrapping_sub(1), old.wrapping_add(1)];
        for number in EDGES.iter().chain(&beside) {
            self.other(Damage::OtherNumber, place, word(old >> 29, *number))?;
        }
        Ok(())
    }

    // This word and each further one of its record, which are plain: the first is spoiled, and then the second is, or the
    // file is cut at it.
    fn twos(&mut self, first: usize, old: u32) -> Result<(), AllocError> {
        for one in spoiled(old) {
            let words = self.file.with_word(first, one)?;
            let file = File {
                heap: self.file.heap,
                words: &words,
            };
            let behind = self.file.words.iter().enumerate().skip(first).skip(1);
            for (second, old) in behind.take_while(|(_, word)| **word >> 29 == 0) {
                self.trial.file(Damage::TwoInARecord, file.cut(second))?;
                for other in spoiled(*old) {
                    let words = file.with_word(second, other)?;
                    self.trial.file(Damage::TwoInARecord, &words)?;
                }
            }
        }
        Ok(())
    }

    fn mixed(&mut self, times: u32) -> Result<(), AllocError> {
        let mut dice = Dice::new();
        for _ in 0..times {
            let mut words = Vec::from_slice(self.file.heap, self.file.words)?;
            for _ in 0..2 + dice.below(3) {
                dice.damage(&mut words)?;
            }
            self.trial.file(Damage::Mixed, &words)?;
        }
        Ok(())
    }

    // Each pair of numbers below 64 in the one channel of a plan, which is before its end.
    fn pairs(&mut self) -> Result<(), AllocError> {
        let place = self.file.words.len().saturating_sub(2);
        for pair in 0..4096 {
            self.other(Damage::OtherPair, place, pair)?;
        }
        Ok(())
    }
}

impl Trial {
    // A file that tells of so many regions and has these.
    fn region_count(&mut self, told: u32, sizes: &[u32]) -> Result<(), AllocError> {
        let mut draft = Draft::new(self.heap());
        draft.machine(2, 4, 12, 100)?;
        draft.regions(told, sizes)?;
        draft.task(10, 20)?;
        self.file(Damage::OtherCount, &draft.end()?)
    }

    fn region_counts(&mut self, size: u32) -> Result<(), AllocError> {
        let sizes = [size; 12];
        for had in 0..=12 {
            for told in (0..20).chain(iter::once(0x1fff_ffff)) {
                self.region_count(told, &sizes[..had])?;
            }
        }
        Ok(())
    }

    // A plan with so many tasks and channels.
    fn counts(&mut self, tasks: u32, channels: u32) -> Result<(), AllocError> {
        let file = varied(self.heap(), tasks, channels)?;
        self.file(Damage::OtherCount, &file)
    }

    // About the greatest count of tasks, then of channels; what is past it is damaged once more.
    fn task_and_channel_counts(&mut self) -> Result<(), AllocError> {
        for tasks in [0, 1, 2, 63, 64, 65, 66] {
            self.counts(tasks, 0)?;
        }
        for channels in [0, 1, 2, 255, 256, 257, 258] {
            self.counts(64, channels)?;
        }
        let file = varied(self.heap(), 65, 2)?;
        Round::new(self, &file).at(Places::starting(138))?;
        let file = varied(self.heap(), 64, 257)?;
        Round::new(self, &file).at(Places::starting(650))
    }

    // All rounds.
    pub(crate) fn all(&mut self) -> Result<(), AllocError> {
        let small = two_task();
        let larger = varied(self.heap(), 20, 60)?;
        let largest = largest(self.heap())?;
        Round::new(self, small).everywhere()?;
        Round::new(self, &larger).everywhere()?;
        Round::new(self, &largest).everywhere()?;
        Round::new(self, small).at(Places::ALL)?;
        Round::new(self, &larger).at(Places::ALL)?;
        Round::new(self, &largest).at(Places { from: 0, stride: 9 })?;
        Round::new(self, &varied(self.heap(), 5, 1)?).pairs()?;
        for size in [0, 10, 20, 1_048_577] {
            self.region_counts(size)?;
        }
        self.task_and_channel_counts()?;
        Round::new(self, small).mixed(1_000)?;
        Round::new(self, &larger).mixed(2_000)
    }
}
