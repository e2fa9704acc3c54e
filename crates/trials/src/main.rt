// Worked figures and boundary cases of the libraries, each told beside what the rules expect of it.
#![tactic(auto)]

mod bank;
mod call;
mod capacitor;
mod failure;
mod floor;
mod leakage;
mod line;
mod rate;
mod report;
mod shown;
mod stack;
mod tally;

use std::process::ExitCode;
use tally::Tally;

fn main(rt: HostRuntime) -> ExitCode {
    let mut tally = Tally::new(&rt);
    rate::run(&mut tally);
    capacitor::run(&mut tally);
    bank::run(&mut tally);
    floor::run(&mut tally);
    leakage::run(&mut tally);
    report::run(&mut tally);
    line::run(&mut tally);
    failure::run(&mut tally);
    tally.tell()
}
