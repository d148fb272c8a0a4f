// The last line on a file. Other programs read it, so its form is fixed.
ghost use Rattle.std.specs.Prelude.{Some};
ghost use Rattle.records.specs.Shown.{shown as told, fault_text};
ghost use Rattle.timetable.specs.Lines.{accepted, refused};

use records::Fault;
use std::fmt;

#[derive(Clone, Copy)]
pub struct Accepted<'a> {
    pub name: &'a str,
    pub tasks: usize,
    pub channels: usize,
}

impl fmt::Display for Accepted<'_> {
    ghost output = { λ x. Some (accepted x.name.now x.tasks x.channels) };

    fn fmt<W: fmt::Write>(&self, f: &mut fmt::Formatter<W>) -> fmt::Result {
        let (name, tasks, channels) = (self.name, self.tasks, self.channels);
        write!(f, "{name}: accepted, {tasks} tasks, {channels} channels")
    }
}

#[derive(Clone, Copy)]
pub struct Refused<'a> {
    pub name: &'a str,
    pub fault: Fault,
}

impl fmt::Display for Refused<'_> {
    ghost output = { λ x. Some (refused x.name.now (told x.fault) (fault_text x.fault)) };

    fn fmt<W: fmt::Write>(&self, f: &mut fmt::Formatter<W>) -> fmt::Result {
        let (name, fault) = (self.name, self.fault);
        let refusal = fault.refusal();
        write!(f, "{name}: refused {refusal}: {fault}")
    }
}
