// Gathers the numbers of a plan from its file, with no memory but its own.
ghost use Rattle.std.specs.Prelude.{◌≡◌, Ok, Err, refl, MatchResult};
ghost use Rattle.board.specs.Plans.{PlanView};
ghost use Rattle.board.specs.Reading.{plan_rules, read_plan};
ghost use Rattle.records.specs.Gathering.{gathered};
ghost use Rattle.records.specs.Shown.{shown};
ghost use Rattle.std.proofs.Common.{rules};

use crate::check::{channel, ends_of, machine, regions, task};
use crate::fault::Fault;
use crate::found::Found;
use crate::gathered::Gathered;
use crate::row::Row;
use crate::rules::{FileRules, read};
use board::{Channel, Task};
use words::{Kind, Record};

// The rules of plan files.
#[derive(Clone, Copy)]
struct PlanRules;

impl FileRules for PlanRules {
    type Gathered = Gathered;

    type Fault = Fault;

    ghost State = { PlanView };

    ghost rules = { λ _. plan_rules };

    ghost state = { gathered };

    ghost told = { shown };

    fn first(&self) -> &'static [Kind]
        ensures { result.now ≡ plan_rules.first }
    {
        &[Kind::Machine]
    }

    fn nothing(&self) -> Gathered {
        Gathered {
            cores: 0,
            slot_time: 0,
            slot_load: 0,
            scratchpad: 0,
            regions: Row::filled(0, 0),
            tasks: Row::filled(0, Task::default()),
            channels: Row::filled(0, Channel::default()),
        }
    }

    fn add(&self, so_far: &mut Gathered, found: Found<'_>) -> Result<(), Fault> {
        let Found { place, says } = found;
        match says {
            Record::Machine {
                cores,
                slot_time,
                slot_load,
                scratchpad,
            } => {
                machine(place, cores, slot_time, slot_load, scratchpad)?;
                so_far.cores = cores;
                so_far.slot_time = slot_time;
                so_far.slot_load = slot_load;
                so_far.scratchpad = scratchpad;
            }
            Record::Regions { place: at, sizes } => {
                regions(place, at, sizes, so_far.scratchpad)?;
                so_far.regions = Row::of(sizes, 0);
            }
            Record::Task { limit, local } => {
                task(place, limit, local, so_far.tasks.len())?;
                so_far.tasks.push(Task { limit, local });
            }
            Record::Channel { bytes, pair } => {
                channel(
                    place,
                    bytes,
                    pair,
                    so_far.tasks.len(),
                    so_far.channels.len(),
                )?;
                let (from, to) = ends_of(pair);
                so_far.channels.push(Channel {
                    from: from as usize,
                    to: to as usize,
                    bytes,
                });
            }
            Record::Exec { .. } | Record::Transfer { .. } | Record::End { .. } => {}
        }
        Ok(())
    }

    ghost ends = { λ _ _ _ _. refl };

    ghost tells = { Prim.search rules };
}

// The numbers of the plan that the words say, or the first refusal.
pub fn gather(words: &[u32]) -> Result<Gathered, Fault>
    ensures { MatchResult result (λ g. read_plan words.now ≡ Ok (gathered g)) (λ e. read_plan words.now ≡ Err (shown e)) }
{
    read(&PlanRules, words)
}
