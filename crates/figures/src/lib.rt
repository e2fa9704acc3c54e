// The worked figures, as one statement about the definitions that the contracts of the libraries name.
#![tactic(auto)]

ghost use Rattle.std.specs.Prelude.{◌≡◌};
ghost use Rattle.figures.specs.Figures.{Figures};

const FIGURES: u8 = 9;

// How many figures there are; that all of them hold is what it promises.
pub fn figures() -> u8
    ensures result { result ≡ 9 }
    ensures figures { Figures }
{
    FIGURES
}
