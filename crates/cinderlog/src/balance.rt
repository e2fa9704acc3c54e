// The seven totals of an audit, and whether they balance.
ghost use Rattle.std.specs.Prelude.{◌≡◌, ◌+◌, ◌==◌};

use node::Totals;
use std::fmt;

// All that was received is held, open, spent or lost.
fn balances(totals: &Totals) -> bool
    ensures result { result ≡ (totals.now.received == totals.now.held + totals.now.«open» + totals.now.spent + totals.now.lost) }
{
    let held = u128::from(totals.held);
    let open = u128::from(totals.open);
    let spent = u128::from(totals.spent);
    let lost = u128::from(totals.lost);
    u128::from(totals.received) == held + open + spent + lost
}

#[derive(Clone, Copy)]
pub struct Balance(pub Totals);

// By hand: a derive has no words that depend on whether the totals balance.
impl fmt::Display for Balance {
    fn fmt<W: fmt::Write>(&self, f: &mut fmt::Formatter<W>) -> fmt::Result {
        let Totals {
            received,
            held,
            open,
            spent,
            lost,
            granted,
            settled,
        } = self.0;
        let (sign, verdict) = if balances(&self.0) {
            ("=", "balanced")
        } else {
            ("is not", "not balanced")
        };
        write!(
            f,
            "received {received} {sign} held {held} + open {open} + spent {spent} + lost {lost}: {verdict}; granted {granted}, settled {settled}"
        )
    }
}
