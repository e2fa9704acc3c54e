// Tells each trial beside what is expected of it, and counts those that came so and those that did not.
ghost use Rattle.std.specs.Prelude.{◌≡◌, ℕ, List, [], ◌∷◌, ◌++◌, Option, OnErr, All, IsTrue, not, bytes_eq};
ghost use Rattle.std.specs.Process.{exit_status};
ghost use Rattle.tables.specs.Books.{plus};
ghost use Rattle.trials.specs.Tally.{Trial, Counts, Shows, Adds, agrees as agrees_in, raised, status_of};

use std::fmt::Display;
use std::io;
use std::process::ExitCode;

#[derive(Drop)]
pub(crate) struct Tally<'a> {
    rt: &'a HostRuntime,
    agreed: u64,
    differed: u64,
    // The first failure to print, after which no trial is told.
    told: io::Result<()>,
}

fn agrees(expected: &str, came: &str) -> bool
    ensures result { result ≡ bytes_eq expected.now came.now }
{
    expected == came
}

// How the program ends: with 0 where all was told, and nothing differed.
fn status(told: &io::Result<()>, differed: u64) -> ExitCode
    ensures status { exit_status result ≡ status_of told.now differed }
{
    if told.is_ok() && differed == 0 {
        ExitCode::SUCCESS
    } else {
        ExitCode::FAILURE
    }
}

impl Tally<'_> {
    // No trial yet.
    pub(crate) fn new(rt: &HostRuntime) -> Tally<'_>
        ensures counts { Counts [] result }
    {
        Tally {
            rt,
            agreed: 0,
            differed: 0,
            told: Ok(()),
        }
    }

    fn count(&mut self, agreed: bool)
        ensures agreed { self.new.agreed ≡ raised agreed self.old.agreed }
        ensures differed { self.new.differed ≡ raised (not agreed) self.old.differed }
        ensures same { self.new.told ≡ self.old.told }
    {
        if agreed {
            self.agreed = self.agreed.saturating_add(1);
        } else {
            self.differed = self.differed.saturating_add(1);
        }
    }

    // How many trials there were.
    fn run(&self) -> u64
        ensures result { result ≡ plus self.now.agreed self.now.differed }
    {
        self.agreed.saturating_add(self.differed)
    }

    fn print(&mut self, what: impl Display + Drop, expected: &str, came: &str)
        ensures same { (self.new.agreed ≡ self.old.agreed) × (self.new.differed ≡ self.old.differed) }
        ensures told { OnErr self.old.told (self.new.told ≡ self.old.told) }
    {
        if self.told.is_ok() {
            self.told = println!(self.rt; "{what}: expected {expected}, came {came}");
        }
    }

    // One trial, told as `what: expected .., came ..`; for want of memory it is one that differs, and not told.
    pub(crate) fn hold<T: Display + Drop>(
        &mut self,
        what: impl Display + Drop,
        expected: &str,
        came: T,
    )
        ensures counts { (ts : List Trial) → Counts ts self.old → (text : Option (List ℕ)) × Shows (T.Display.output came) text × Counts (ts ++ record { expected = expected.now; came = text } ∷ []) self.new }
        ensures trials { Adds 1 self.old self.new }
        ensures told { OnErr self.old.told (self.new.told ≡ self.old.told) }
    {
        match came.to_string(self.rt.alloc()) {
            Ok(text) => {
                self.count(agrees(expected, text.as_str()));
                self.print(what, expected, text.as_str());
            }
            Err(_) => self.count(false),
        }
    }

    // The last line, how many came as expected, and the status of the program.
    pub(crate) fn tell(self) -> ExitCode
        ensures status { (ts : List Trial) → Counts ts self.entry → exit_status result ≡ 0 → All (λ t. IsTrue (agrees_in t)) ts }
        ensures told { OnErr self.entry.told (exit_status result ≡ 1) }
    {
        let run = self.run();
        let Tally {
            rt,
            agreed,
            differed,
            told,
        } = self;
        let told = told.and_then(|()| println!(rt; "{agreed} of {run} came as expected"));
        if let Err(error) = &told {
            let _ = eprintln!(rt; "trials: {error}");
        }
        status(&told, differed)
    }
}
