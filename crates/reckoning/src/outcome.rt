// What a reader of plan files answers, in a form in which two answers can be compared.
ghost use Rattle.std.specs.Prelude.{◌≡◌, IfOk};
ghost use Rattle.plan.specs.Views.{view};
ghost use Rattle.reckoning.specs.Answers.{plan_said, Told};

use plan::{Channel, Plan, ReadError, Task};
use std::alloc::{AllocError, Global};
use words::Refusal;

// All numbers of a plan, but not in its ranges by their type, so that the second reader can make them.
#[derive(Debug, PartialEq, Eq, Drop)]
pub struct Numbers {
    pub cores: u32,
    pub slot_time: u32,
    pub slot_load: u32,
    pub scratchpad: u32,
    pub regions: Vec<u32>,
    pub tasks: Vec<Task>,
    pub channels: Vec<Channel>,
}

// What a reader answers, want of memory apart.
pub type Outcome = Result<Numbers, Refusal>;

impl Numbers {
    pub(crate) fn of(heap: Global, plan: &Plan) -> Result<Numbers, AllocError>
        ensures { IfOk result (λ n. plan_said n ≡ view plan.now) }
    {
        Ok(Numbers {
            cores: plan.cores(),
            slot_time: plan.slot_time(),
            slot_load: plan.slot_load(),
            scratchpad: plan.scratchpad(),
            regions: Vec::from_slice(heap, plan.regions())?,
            tasks: Vec::from_slice(heap, plan.tasks())?,
            channels: Vec::from_slice(heap, plan.channels())?,
        })
    }
}

// What the proved reader answers.
pub(crate) fn proved(heap: Global, words: &[u32]) -> Result<Outcome, AllocError>
    ensures { IfOk result (Told words.now) }
{
    match Plan::read(heap, words) {
        Ok(plan) => Ok(Ok(Numbers::of(heap, &plan)?)),
        Err(ReadError::Refused(fault)) => Ok(Err(fault.refusal())),
        Err(ReadError::NoMemory) => Err(AllocError),
    }
}
