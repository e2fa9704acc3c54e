// Replays a script of frames, and tells it in sentences: each line, and what they come to.
#![tactic(auto)]

mod balance;
mod matter;
mod sentence;
mod session;
mod table;

use session::Session;
use std::process::ExitCode;

const HELP: &str = "cinderlog: a script of frames told in sentences, and its refusals counted

usage: cinderlog < SCRIPT

The script is one for cindersim: each line is a frame in upper-case hexadecimal.
It is replayed, and each line is told on standard output: its number, what was
asked, and what came of it. A damaged line is told as such and not shown.

After the last line come

  how many lines there were, how many were accepted and how many refused
  the refused lines by their number, with a word for each
  the denials under 16 and 17 by task and reserve: how many, and the quanta
    lacking; and those of all tasks together
  the seven totals of the node that stands, and whether they balance
";

// A session that can't be made is told in one line, as `filter` tells what ends a script: a call for three lines would
// be no plainer.
fn main(rt: HostRuntime) -> ExitCode {
    match Session::new(rt.alloc(), rt.stdout()) {
        Ok(mut session) => filter::run(&rt, "cinderlog", HELP, &mut session),
        Err(error) => {
            let _ = eprintln!(rt; "cinderlog: {error}");
            ExitCode::FAILURE
        }
    }
}
