// How a program ends whose story is told.
ghost use Rattle.std.specs.Prelude.{◌≡◌};
ghost use Rattle.std.specs.Process.{exit_status};
ghost use Rattle.example.specs.Ending.{status_of};

use crate::failure::Failure;
use std::process::ExitCode;

// A failure is told as one line of standard error, which begins with the program's name.
pub fn ended(rt: &HostRuntime, program: &str, story: Result<(), Failure>) -> ExitCode
    ensures result { exit_status result ≡ status_of story }
{
    match story {
        Ok(()) => ExitCode::SUCCESS,
        Err(failure) => {
            let _ = eprintln!(rt; "{program}: {failure}");
            ExitCode::FAILURE
        }
    }
}
