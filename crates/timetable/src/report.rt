// Tells of each file what it says, and whether it is accepted.
use crate::detail::Detail;
use crate::load::{LoadError, load};
use crate::steps::Steps;
use crate::table::Table;
use crate::verdict::{Accepted, Refused};
use plan::{Plan, ReadError};
use records::Fault;
use std::io;
use std::io::{BufWriter, Write};

// The program ends with status 1.
#[derive(Clone, Copy)]
pub struct Failed;

impl From<io::Error> for Failed {
    fn from(_e: io::Error) -> Failed {
        Failed
    }
}

// What became of a file. Only a refused one changes the status.
#[derive(Clone, Copy, PartialEq, Eq)]
enum Outcome {
    Accepted,
    Refused,
    // It could not be judged.
    Unread,
}

// Tells the files one by one.
pub(crate) fn tell_plans(rt: &HostRuntime, files: &[String]) -> Result<(), Failed> {
    let mut out = match BufWriter::new(rt.alloc(), rt.stdout()) {
        Ok(out) => out,
        Err(e) => {
            eprintln!(rt; "timetable: nothing can be told: {e}")?;
            return Err(Failed);
        }
    };
    let mut answer = Ok(());
    for (i, file) in files.iter().enumerate() {
        if i > 0 {
            writeln!(out)?;
        }
        let mut report = Report {
            rt,
            out: &mut out,
            name: file.as_str(),
        };
        if report.tell()? == Outcome::Refused {
            answer = Err(Failed);
        }
    }
    out.flush()?;
    answer
}

// What is told of the file of this name.
#[derive(Drop)]
struct Report<'a, W> {
    rt: &'a HostRuntime,
    out: &'a mut W,
    name: &'a str,
}

impl<W: Write> Report<'_, W> {
    fn tell(&mut self) -> io::Result<Outcome> {
        match load(self.rt, self.name) {
            Ok(words) => self.tell_words(&words),
            Err(error) => self.tell_unloaded(error),
        }
    }

    // No words were got from the file.
    fn tell_unloaded(&mut self, error: LoadError) -> io::Result<Outcome> {
        let name = self.name;
        match error {
            LoadError::Cut { bytes, fault } => {
                let (count, left) = (bytes / 4, bytes % 4);
                writeln!(self.out, "{name}: {count} words and {left} bytes")?;
                let refused = Refused {
                    name,
                    fault: fault.into(),
                };
                writeln!(self.out, "{refused}: {error}")?;
                Ok(Outcome::Refused)
            }
            LoadError::Token { .. } => {
                writeln!(self.out, "{name}: {error}")?;
                Ok(Outcome::Refused)
            }
            LoadError::NoMemory | LoadError::Unreadable(_) => {
                // What is held back comes first.
                self.out.flush()?;
                eprintln!(self.rt; "{name}: {error}")?;
                Ok(Outcome::Unread)
            }
        }
    }

    fn tell_words(&mut self, words: &[u32]) -> io::Result<Outcome> {
        let (name, count) = (self.name, words.len());
        writeln!(self.out, "{name}: {count} words")?;
        match Plan::read(self.rt.alloc(), words) {
            Ok(plan) => self.tell_plan(words, &plan),
            Err(ReadError::Refused(fault)) => self.tell_refusal(words, fault),
            Err(ReadError::NoMemory) => self.tell_unloaded(LoadError::NoMemory),
        }
    }

    fn tell_plan(&mut self, words: &[u32], plan: &Plan) -> io::Result<Outcome> {
        let steps = Steps {
            words,
            last: words.len(),
        };
        let table = Table { plan };
        let accepted = Accepted {
            name: self.name,
            tasks: plan.tasks().len(),
            channels: plan.channels().len(),
        };
        writeln!(self.out, "{steps}{table}{accepted}")?;
        Ok(Outcome::Accepted)
    }

    fn tell_refusal(&mut self, words: &[u32], fault: Fault) -> io::Result<Outcome> {
        let steps = Steps {
            words,
            last: fault.refusal().place,
        };
        let refused = Refused {
            name: self.name,
            fault,
        };
        write!(self.out, "{steps}{refused}")?;
        if let Some(detail) = Detail::of(words, fault) {
            write!(self.out, ": {detail}")?;
        }
        writeln!(self.out)?;
        Ok(Outcome::Refused)
    }
}
