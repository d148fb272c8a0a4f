// The worked examples of the subject, shown of the definitions that the contracts cite.
#![tactic(auto)]

ghost use Rattle.std.specs.Prelude.{◌≡◌};
ghost use Rattle.cases.specs.Worked.{two_task_words, WorkedCases};

// The file of the two-task plan, on which the examples are worked.
pub fn two_task() -> &'static [u32]
    ensures words { result.now ≡ two_task_words }
    ensures cases { WorkedCases }
{
    &[
        // two cores, slots of 4 cycles and 12 bytes, 100 bytes of scratchpad
        0x2000_0002,
        4,
        12,
        100,
        // regions of 60 and 40 bytes
        0x4000_0002,
        60,
        40,
        // the two tasks
        0x6000_000A,
        20,
        0x6000_0006,
        30,
        // 24 bytes from task 0 to task 1
        0x8000_0018,
        1,
        0xE000_000D,
    ]
}
