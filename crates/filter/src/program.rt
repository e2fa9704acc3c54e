// A program that reads its script from standard input, and writes to standard output.
ghost use Rattle.std.specs.Prelude.{◌≡◌, ◌≤◌, ◌<◌, ◌^◌, ℕ, List, length, Some, OnOk};
ghost use Rattle.std.specs.Process.{exit_status};
ghost use Rattle.filter.specs.Status.{Ends};
ghost use Rattle.filter.specs.Taking.{Taken};

use crate::cutting::Cutter;
use crate::script::Script;
use std::io::{ErrorKind, Read};
use std::process::ExitCode;
use std::{env, io};
use thiserror::Error;

const CHUNK: usize = 65_536;

// Why a script is not taken to its end.
#[derive(Debug, Drop, Error)]
enum Stop {
    #[error("standard input can't be read: {0}")]
    Input(io::Error),
    #[error("standard output can't be written: {0}")]
    Output(#[from] io::Error),
}

// Hands over every line; a last one that is not empty may lack its line feed. What is answered is written before more is read.
fn take_all<S: Script, R: Read + Drop>(script: &mut S, mut input: R) -> Result<(), Stop>
    ensures taken { (bs : List ℕ) → R.remaining input ≡ Some bs → length bs < 2 ^ 64 → OnOk result (Taken (S.Script) script.old bs script.new) }
{
    let mut cutter = Cutter::new(script);
    let mut chunk = [0; CHUNK];
    // It counts, since every loop is proved to end, and nothing says that an input does.
    for _ in 0..u64::MAX {
        let len = input.read(&mut chunk).map_err(Stop::Input)?;
        if len == 0 {
            break;
        }
        cutter.feed(&chunk[0..len])?;
        cutter.script.flush()?;
    }
    cutter.end()?;
    cutter.script.end()?;
    Ok(cutter.script.flush()?)
}

// How a program ends, which tells on standard error why the script was not taken to its end; that nobody reads on is no failure.
fn tell(rt: &HostRuntime, name: &str, res: Result<(), Stop>) -> ExitCode
    ensures status { Ends res (exit_status result) }
{
    match res {
        Ok(()) => ExitCode::SUCCESS,
        Err(Stop::Output(error)) if error.kind() == ErrorKind::BrokenPipe => ExitCode::SUCCESS,
        Err(stop) => {
            let _ = eprintln!(rt; "{name}: {stop}");
            ExitCode::FAILURE
        }
    }
}

// Runs a program that takes no argument but `--help`. It fails with one line on standard error, and else writes none there.
#[tactic(auto, using(crate::proofs::StatusLaws::ends_most))]
pub fn run<S: Script>(rt: &HostRuntime, name: &str, help: &str, script: &mut S) -> ExitCode
    ensures status { exit_status result ≤ 1 }
{
    let Ok(mut args) = env::args(rt) else {
        let _ = eprintln!(rt; "{name}: the arguments can't be read");
        return ExitCode::FAILURE;
    };
    let _ = args.next();
    match args.next() {
        None => tell(rt, name, take_all(script, rt.stdin())),
        Some(word) if word.as_str() == "--help" => tell(
            rt,
            name,
            rt.print(help).map_err(Stop::Output),
        ),
        Some(word) => {
            let _ = eprintln!(rt; "{name}: no argument is taken but --help, and '{word}' is none");
            ExitCode::FAILURE
        }
    }
}
