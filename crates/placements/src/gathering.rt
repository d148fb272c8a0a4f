// Gathers the placements of a timetable from its file, with no memory but its own.
ghost use Rattle.std.specs.Prelude.{◌≡◌, Ok, Err, refl, MatchResult};
ghost use Rattle.board.specs.Timetables.{Loaded as LoadedView, timetable_rules, read_sheet};
ghost use Rattle.plan.specs.Views.{view};
ghost use Rattle.placements.specs.Gathering.{sheet_in, loaded};
ghost use Rattle.placements.specs.Shown.{shown};
ghost use Rattle.std.proofs.Common.{rules};

use crate::check::{exec, parts_of, transfer};
use crate::fault::Fault;
use crate::gathered::{Loaded, Placements};
use board::Seat;
use plan::Plan;
use records::{FileRules, Found, Row, read};
use words::{Kind, Record};

// The rules of the timetable files of a plan.
#[derive(Clone, Copy)]
struct TimetableRules<'p> {
    plan: &'p Plan,
}

impl FileRules for TimetableRules<'_> {
    type Gathered = Loaded;

    type Fault = Fault;

    ghost State = { LoadedView };

    ghost rules = { λ x. timetable_rules (view x.plan.now) };

    ghost state = { loaded };

    ghost told = { shown };

    fn first(&self) -> &'static [Kind]
        ensures { result.now ≡ (timetable_rules (view self.now.plan.now)).first }
    {
        &[Kind::Exec, Kind::Transfer, Kind::End]
    }

    fn nothing(&self) -> Loaded {
        Loaded {
            placements: Placements {
                execs: Row::filled(self.plan.tasks().len(), None),
                transfers: Row::filled(2 * self.plan.channels().len(), None),
            },
            next_task: 0,
            next_value: 0,
        }
    }

    fn add(&self, so_far: &mut Loaded, found: Found<'_>) -> Result<(), Fault> {
        match found.says {
            Record::Exec { start, seat } => {
                exec(self.plan, found.place, start, seat, so_far.next_task)?;
                let (task, core, region) = parts_of(seat);
                // A record that may stand names an entry of the plan, so its place is there; likewise below.
                so_far.placements.execs.set(
                    task,
                    Some(Seat {
                        start,
                        core,
                        region,
                    }),
                );
                so_far.next_task = task + 1;
            }
            Record::Transfer { start, side } => {
                transfer(self.plan, found.place, start, side, so_far.next_value)?;
                let value = side as usize;
                so_far.placements.transfers.set(value, Some(start));
                so_far.next_value = value + 1;
            }
            Record::Machine { .. }
            | Record::Regions { .. }
            | Record::Task { .. }
            | Record::Channel { .. }
            | Record::End { .. } => {}
        }
        Ok(())
    }

    ghost ends = { λ _ _ _ _. refl };

    ghost tells = { Prim.search rules };
}

impl Placements {
    // What the words say as a timetable of the plan, or the first refusal.
    pub fn read(plan: &Plan, words: &[u32]) -> Result<Placements, Fault>
        ensures { MatchResult result (λ g. read_sheet (view plan.now) words.now ≡ Ok (sheet_in g)) (λ e. read_sheet (view plan.now) words.now ≡ Err (shown e)) }
    {
        let loaded = read(&TimetableRules { plan }, words)?;
        Ok(loaded.placements)
    }
}
