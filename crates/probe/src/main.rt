// A soil probe's story, told in plain sentences, and what a bank, a floor and a leak do on the way.
#![tactic(auto)]

mod probe;
mod stores;
mod tally;

use example::Failure;
use std::process::ExitCode;

fn tell(rt: &impl Print) -> Result<(), Failure> {
    probe::tell(rt)?;
    stores::tell_bank(rt)?;
    stores::tell_layers(rt)
}

fn main(rt: HostRuntime) -> ExitCode {
    example::ended(&rt, "probe", tell(&rt))
}
