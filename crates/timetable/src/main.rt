// The program `timetable`: reads plan files, and tells what they say or why they are refused.
#![tactic(auto)]

mod command;
mod detail;
mod load;
mod report;
mod steps;
mod table;
mod verdict;
mod walk;

use command::{Command, HELP, command_of};
use report::{Failed, tell_plans};
use std::process::ExitCode;
use std::{env, io};

// The words behind the program's name.
fn arguments(rt: &HostRuntime) -> io::Result<Vec<String>> {
    let mut all = env::args(rt)?;
    let _ = all.next();
    Ok(all.collect(rt.alloc())?)
}

// Does what the arguments ask. What went wrong is told before an Err.
fn run(rt: &HostRuntime) -> Result<(), Failed> {
    let words = match arguments(rt) {
        Ok(words) => words,
        Err(e) => {
            eprintln!(rt; "timetable: the command can't be read: {e}")?;
            return Err(Failed);
        }
    };
    match command_of(words.as_slice()) {
        Ok(Command::Help) => Ok(rt.print(HELP)?),
        Ok(Command::Plan(files)) => tell_plans(rt, files),
        Err(wrong) => {
            eprint!(rt; "timetable: {wrong}\n\n{HELP}")?;
            Err(Failed)
        }
    }
}

// Ends with status 1 where the run failed.
fn main(rt: HostRuntime) -> ExitCode {
    match run(&rt) {
        Ok(()) => ExitCode::SUCCESS,
        Err(Failed) => ExitCode::FAILURE,
    }
}
