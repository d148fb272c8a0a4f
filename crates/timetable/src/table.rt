// Shows a plan as a table.
ghost use Rattle.std.specs.Prelude.{◌≡◌, nat_le};
ghost use Rattle.timetable.specs.Fitting.{TooSmall};

use plan::Plan;
use std::fmt;

#[derive(Clone, Copy)]
pub struct Table<'a> {
    pub plan: &'a Plan,
}

impl fmt::Display for Table<'_> {
    fn fmt<W: fmt::Write>(&self, f: &mut fmt::Formatter<W>) -> fmt::Result {
        f.write_str("\n")?;
        self.board(f)?;
        f.write_str("\n")?;
        self.tasks(f)?;
        if !self.plan.channels().is_empty() {
            f.write_str("\n")?;
            self.channels(f)?;
        }
        f.write_str("\n")
    }
}

impl Table<'_> {
    fn board<W: fmt::Write>(self, f: &mut fmt::Formatter<W>) -> fmt::Result {
        let (cores, time) = (self.plan.cores(), self.plan.slot_time());
        let (load, scratchpad) = (self.plan.slot_load(), self.plan.scratchpad());
        writeln!(f, "  cores       {cores:>7}")?;
        writeln!(f, "  slot time   {time:>7} cycles")?;
        writeln!(f, "  slot load   {load:>7} bytes")?;
        writeln!(f, "  scratchpad  {scratchpad:>7} bytes")?;
        for (i, size) in self.plan.regions().iter().enumerate() {
            writeln!(f, "  region {i}    {size:>7} bytes")?;
        }
        Ok(())
    }

    fn tasks<W: fmt::Write>(self, f: &mut fmt::Formatter<W>) -> fmt::Result {
        f.write_str("     task    limit    local     need  fits in\n")?;
        f.write_str("            cycles    bytes    bytes  region\n")?;
        for (i, task) in self.plan.tasks().iter().enumerate() {
            let (limit, local) = (task.limit, task.local);
            // Each task of the plan has a need.
            let need = self.plan.need(i).unwrap_or(0);
            let fits = Fits {
                need,
                sizes: self.plan.regions(),
            };
            writeln!(f, "  {i:>7}  {limit:>7}  {local:>7}  {need:>7} {fits}")?;
        }
        Ok(())
    }

    fn channels<W: fmt::Write>(self, f: &mut fmt::Formatter<W>) -> fmt::Result {
        f.write_str("  channel    bytes     from       to   on bus\n")?;
        f.write_str("                       task     task   cycles\n")?;
        for (i, channel) in self.plan.channels().iter().enumerate() {
            let (bytes, from, to) = (channel.bytes, channel.from, channel.to);
            let cycles = self.plan.cycles(bytes);
            writeln!(f, "  {i:>7}  {bytes:>7}  {from:>7}  {to:>7}  {cycles:>7}")?;
        }
        Ok(())
    }
}

// The regions that can hold a task with this need.
#[derive(Clone, Copy)]
struct Fits<'a> {
    need: u32,
    sizes: &'a [u32],
}

impl Fits<'_> {
    // Whether there is none.
    fn none(&self) -> bool
        ensures { TooSmall self.now.need self.now.sizes.now result }
    {
        !self.sizes.iter().any(|size| holds(*size, self.need))
    }
}

impl fmt::Display for Fits<'_> {
    fn fmt<W: fmt::Write>(&self, f: &mut fmt::Formatter<W>) -> fmt::Result {
        if self.none() {
            return f.write_str(" none");
        }
        let sizes = self.sizes.iter().enumerate();
        for (i, _) in sizes.filter(|(_, size)| holds(**size, self.need)) {
            write!(f, " {i}")?;
        }
        Ok(())
    }
}

// Whether a region of this size can hold a task with this need.
fn holds(size: u32, need: u32) -> bool
    ensures { result ≡ nat_le need size }
{
    need <= size
}
