// Some denials: how many, and the quanta that they lack in all. Both stay at the largest number once there.
ghost use Rattle.std.specs.Prelude.{◌≡◌};
ghost use Rattle.recount.specs.Recount.{none, with_one};

#[derive(Clone, Copy)]
pub struct Row {
    pub times: u64,
    pub lacking: u64,
}

impl Row {
    // No denials.
    pub(crate) fn new() -> Row
        ensures result { result ≡ none }
    {
        Row {
            times: 0,
            lacking: 0,
        }
    }

    // One denial more.
    pub(crate) fn add(self, deficit: u32) -> Row
        ensures result { result ≡ with_one self deficit }
    {
        Row {
            times: self.times.saturating_add(1),
            lacking: self.lacking.saturating_add(u64::from(deficit)),
        }
    }
}
