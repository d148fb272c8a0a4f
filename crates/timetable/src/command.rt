// The commands of the program.
ghost use Rattle.timetable.specs.Commands.{Given, Asked};

use std::fmt;

pub const HELP: &str = "\
usage:
  timetable plan FILE..   read plans, tell each record and show each plan as a table
  timetable help          show this text

A FILE whose name ends in .hex is text: words of eight hexadecimal digits,
between blanks and line ends, with comments from # to the end of the line.
Any other FILE is raw: four bytes a word, the most significant first.

The last line on a file is one of
  FILE: accepted, N tasks, M channels
  FILE: refused NUMBER in LAYER at PLACE: MEANING
  FILE: not words: line L, column C: MEANING
where PLACE counts the words before the one to blame.
A FILE that can't be read is told on standard error, and the next one is read.
The status is 1 where a FILE is refused or is not words, or the command is wrong,
and 0 otherwise.

example:
  timetable plan two-task.plan two-task.hex
";

pub enum Command<'a> {
    Help,
    Plan(&'a [String]),
}

// What is wrong with a command.
#[derive(Drop)]
pub enum Wrong<'a> {
    NoCommand,
    NoFile,
    Unknown(&'a str),
}

impl fmt::Display for Wrong<'_> {
    fn fmt<W: fmt::Write>(&self, f: &mut fmt::Formatter<W>) -> fmt::Result {
        match self {
            Wrong::NoCommand => f.write_str("no command"),
            Wrong::NoFile => f.write_str("plan needs a file"),
            Wrong::Unknown(word) => write!(f, "no such command: {word}"),
        }
    }
}

// The command that these words give.
pub(crate) fn command_of(words: &[String]) -> Result<Command<'_>, Wrong<'_>>
    ensures { Given words.now result }
{
    let (name, files) = words.split_first().ok_or(Wrong::NoCommand)?;
    command_on(name.as_str(), files)
}

// The command of this name on these files.
fn command_on<'a>(name: &'a str, files: &'a [String]) -> Result<Command<'a>, Wrong<'a>>
    ensures { Asked name.now files.now result }
{
    match name {
        "help" => Ok(Command::Help),
        "plan" if files.is_empty() => Err(Wrong::NoFile),
        "plan" => Ok(Command::Plan(files)),
        _ => Err(Wrong::Unknown(name)),
    }
}
