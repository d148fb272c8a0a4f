// Holds the proved reader of plan files against a second one, over whole files and thousands of damaged ones.
#![tactic(auto)]

mod damage;
mod dice;
mod draft;
mod outcome;
mod rounds;
mod rule;
mod sweep;
mod tally;
mod trial;

use anyhow::anyhow;
use trial::Trial;

fn run(rt: &HostRuntime) -> anyhow::Result<()> {
    let mut trial = Trial::new(rt.alloc());
    trial.all()?;
    print!(rt; "{}", trial.tally())?;
    let Some(first) = trial.first() else {
        return Ok(());
    };
    print!(rt; "{first}")?;
    Err(anyhow!("the two readers differ"))
}

fn main(rt: HostRuntime) -> anyhow::Result<()> {
    run(&rt)
}
