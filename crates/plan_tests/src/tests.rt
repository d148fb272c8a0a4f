// What reading answers to files whose answers are known.
use cases::two_task;
use plan::{Channel, Plan, Task};
use std::alloc::{AllocError, Global};
use std::test::Fail;
use words::{Layer, Refusal};

// What there is of a plan that was read.
#[derive(Clone, Copy, Debug, PartialEq, Eq)]
struct Counts {
    tasks: usize,
    channels: usize,
}

type Verdict = Result<Counts, Refusal>;

fn answer(heap: Global, words: &[u32]) -> Result<Verdict, Fail> {
    match Plan::read(heap, words) {
        Ok(plan) => Ok(Ok(Counts {
            tasks: plan.tasks().len(),
            channels: plan.channels().len(),
        })),
        Err(error) => match error.refusal() {
            Some(refusal) => Ok(Err(refusal)),
            None => Err(Fail::new("out of memory")),
        },
    }
}

fn refused(number: u32, layer: Layer, place: usize) -> Verdict {
    Err(Refusal {
        number,
        layer,
        place,
    })
}

fn in_words(number: u32, place: usize) -> Verdict {
    refused(number, Layer::Words, place)
}

fn in_records(number: u32, place: usize) -> Verdict {
    refused(number, Layer::Records, place)
}

// The file of the two-task plan with a fault or more: the words that are changed, each by its place, how many words are
// kept, and what is answered.
#[derive(Clone, Copy)]
struct Case {
    changes: &'static [(usize, u32)],
    kept: usize,
    verdict: Verdict,
}

impl Case {
    fn of(changes: &'static [(usize, u32)], verdict: Verdict) -> Case {
        Case {
            changes,
            kept: 14,
            verdict,
        }
    }

    fn cut(self, kept: usize) -> Case {
        Case { kept, ..self }
    }

    fn answer(&self, heap: Global) -> Result<Verdict, Fail> {
        let mut words = Vec::from_slice(heap, two_task())?;
        for (place, word) in self.changes {
            if let Some(old) = words.get_mut(*place) {
                *old = *word;
            }
        }
        words.truncate(self.kept);
        answer(heap, &words)
    }
}

// The first words of a plan: a machine, and regions of these sizes that are told to be so many.
fn begun(heap: Global, told: u32, sizes: &[u32]) -> Result<Vec<u32>, AllocError> {
    let mut words = Vec::from_slice(heap, &[0x2000_0002, 4, 12, 100])?;
    words.push(0x4000_0000 + told % 0x2000_0000)?;
    words.extend_from_slice(sizes)?;
    Ok(words)
}

// A record of two words, so many times.
fn repeat(words: &mut Vec<u32>, record: [u32; 2], times: usize) -> Result<(), AllocError> {
    for _ in 0..times {
        words.extend_from_slice(&record)?;
    }
    Ok(())
}

// The end word, which counts the words before it.
fn ended(mut words: Vec<u32>) -> Result<Vec<u32>, AllocError> {
    words.push(0xE000_0000 + (words.len() % 0x2000_0000) as u32)?;
    Ok(words)
}

fn with_regions(heap: Global, told: u32, sizes: &[u32]) -> Result<Verdict, Fail> {
    let mut words = begun(heap, told, sizes)?;
    repeat(&mut words, [0x6000_000A, 20], 1)?;
    answer(heap, &ended(words)?)
}

// A plan of so many tasks and of so many channels between the first two.
fn with_counts(heap: Global, tasks: usize, channels: usize) -> Result<Verdict, Fail> {
    let mut words = begun(heap, 1, &[100])?;
    repeat(&mut words, [0x6000_0001, 0], tasks)?;
    repeat(&mut words, [0x8000_0001, 1], channels)?;
    answer(heap, &ended(words)?)
}

#[test]
fn the_two_task_plan_is_read_with_its_numbers(rt: HostRuntime) -> Result<(), Fail> {
    let Ok(plan) = Plan::read(rt.alloc(), two_task()) else {
        return Err(Fail::new("no plan"));
    };
    assert_eq!(rt;
        (plan.cores(), plan.slot_time(), plan.slot_load()),
        (2, 4, 12)
    );
    assert_eq!(rt; plan.scratchpad(), 100);
    assert_eq!(rt; plan.regions(), &[60, 40][..]);
    let tasks = [
        Task {
            limit: 10,
            local: 20,
        },
        Task {
            limit: 6,
            local: 30,
        },
    ];
    assert_eq!(rt; plan.tasks(), &tasks[..]);
    let channel = Channel {
        from: 0,
        to: 1,
        bytes: 24,
    };
    assert_eq!(rt; plan.channels(), &[channel][..]);
    Ok(())
}

#[test]
fn lengths_and_needs_of_the_two_task_plan(rt: HostRuntime) -> Result<(), Fail> {
    let Ok(plan) = Plan::read(rt.alloc(), two_task()) else {
        return Err(Fail::new("no plan"));
    };
    assert_eq!(rt;
        (plan.cycles(1), plan.cycles(12), plan.cycles(13)),
        (4, 4, 8)
    );
    assert_eq!(rt; (plan.exec_length(1), plan.exec_length(2)), (Some(6), None));
    assert_eq!(rt;
        (plan.transfer_length(0), plan.transfer_length(1)),
        (Some(8), None)
    );
    assert_eq!(rt;
        (plan.need(0), plan.need(1), plan.need(2)),
        (Some(44), Some(54), None)
    );
    Ok(())
}

#[test]
fn the_empty_file_and_every_prefix_end_too_soon(rt: HostRuntime) -> Result<(), Fail> {
    for length in 0..two_task().len() {
        let case = Case::of(&[], in_words(1, length)).cut(length);
        assert_eq!(rt; case.answer(rt.alloc())?, case.verdict);
    }
    Ok(())
}

#[test]
fn the_lowest_rule_of_the_first_faulty_record_decides(rt: HostRuntime) -> Result<(), Fail> {
    let cases = [
        // each refusal alone
        Case::of(&[], in_words(1, 12)).cut(12),
        Case::of(&[(9, 0xA000_0000)], in_words(2, 9)),
        Case::of(&[(7, 0x8000_0018)], in_words(2, 7)),
        Case::of(&[(8, 0xE000_0008)], in_words(2, 8)),
        Case::of(&[(0, 0x2000_0000)], in_records(3, 0)),
        Case::of(&[(12, 0x0000_1000)], in_records(3, 12)),
        Case::of(&[(12, 0x0000_0040)], in_records(5, 12)),
        Case::of(&[(12, 0x0000_0002)], in_records(5, 12)),
        Case::of(&[(6, 0x0000_0029)], in_records(6, 4)),
        Case::of(&[(13, 0xE000_000C)], in_records(7, 13)),
        Case::of(&[(9, 0xE000_0009)], in_records(7, 9)),
        // two in one record, where the lower number decides
        Case::of(&[(0, 0x2000_0009), (2, 0x4000_000C)], in_words(2, 2)),
        Case::of(&[(0, 0x2000_0009), (2, 0x4000_000C)], in_words(1, 3)).cut(3),
        Case::of(&[(5, 0x0000_0000), (6, 0x0000_0065)], in_records(3, 5)),
        Case::of(&[(11, 0x8000_0000), (12, 0x0000_0040)], in_records(3, 11)),
        // two words against one rule, where the earlier decides
        Case::of(&[(7, 0x6000_0000), (8, 0x0001_0000)], in_records(3, 7)),
        // the opening word before its record is measured
        Case::of(&[(0, 0x4000_0002)], in_words(2, 0)).cut(1),
        // counts of regions that are measured by, whether or not there may be so many
        Case::of(&[(4, 0x4000_0000)], in_records(3, 4)),
        Case::of(&[(4, 0x4000_0008)], in_words(2, 7)),
        Case::of(&[(4, 0x4000_0009)], in_words(2, 7)),
        Case::of(&[(4, 0x4000_000A)], in_words(1, 14)),
        Case::of(&[(4, 0x5FFF_FFFF)], in_words(1, 14)),
        // faults of two records, where the earlier record decides
        Case::of(&[(12, 0x0000_0041), (13, 0xE000_000E)], in_records(5, 12)),
        Case::of(&[(7, 0x6000_0000), (12, 0x8000_0000)], in_records(3, 7)),
    ];
    for (index, case) in cases.iter().enumerate() {
        assert_eq!(rt; case.answer(rt.alloc())?, case.verdict, "case {index}");
    }
    Ok(())
}

#[test]
fn words_after_the_end_are_refused_at_the_end_word(rt: HostRuntime) -> Result<(), Fail> {
    for word in [0, 0x6000_000A, 0xE000_000E] {
        let mut words = Vec::from_slice(rt.alloc(), two_task())?;
        words.push(word)?;
        assert_eq!(rt; answer(rt.alloc(), &words)?, in_records(7, 13));
    }
    Ok(())
}

#[test]
fn a_plan_has_one_to_eight_regions(rt: HostRuntime) -> Result<(), Fail> {
    let heap = rt.alloc();
    let read = Ok(Counts {
        tasks: 1,
        channels: 0,
    });
    assert_eq!(rt; with_regions(heap, 0, &[])?, in_records(3, 4));
    assert_eq!(rt; with_regions(heap, 1, &[100])?, read);
    assert_eq!(rt; with_regions(heap, 8, &[12; 8])?, read);
    assert_eq!(rt; with_regions(heap, 8, &[13; 8])?, in_records(6, 4));
    assert_eq!(rt; with_regions(heap, 9, &[11; 9])?, in_records(3, 4));
    assert_eq!(rt; with_regions(heap, 9, &[0; 9])?, in_records(3, 4));
    assert_eq!(rt; with_regions(heap, 9, &[11; 8])?, in_words(2, 13));
    assert_eq!(rt; with_regions(heap, 536_870_911, &[11; 8])?, in_words(1, 16));
    Ok(())
}

#[test]
fn a_plan_has_one_to_64_tasks(rt: HostRuntime) -> Result<(), Fail> {
    let heap = rt.alloc();
    let most = Ok(Counts {
        tasks: 64,
        channels: 0,
    });
    assert_eq!(rt; with_counts(heap, 0, 0)?, in_words(2, 6));
    assert_eq!(rt; with_counts(heap, 64, 0)?, most);
    assert_eq!(rt; with_counts(heap, 65, 0)?, in_records(4, 134));
    Ok(())
}

#[test]
fn a_plan_has_at_most_256_channels(rt: HostRuntime) -> Result<(), Fail> {
    let heap = rt.alloc();
    let most = Ok(Counts {
        tasks: 2,
        channels: 256,
    });
    assert_eq!(rt; with_counts(heap, 2, 256)?, most);
    assert_eq!(rt; with_counts(heap, 2, 257)?, in_records(4, 522));
    Ok(())
}
