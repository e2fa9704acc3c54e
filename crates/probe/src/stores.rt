// A bank, and a capacitor under a floor under leakage, each for a few ticks.
ghost use Rattle.std.specs.Prelude.{◌≡◌, ◌-◌};
ghost use Rattle.node.specs.Runs.{Reached};

use example::Failure;
use layers::{Floor, Layer, Leakage};
use node::{Node, ROOT, ROOT_TASK, TAPS};
use store::{Bank, Capacitor, Store};

fn tick<S: Store>(rt: &impl Print, node: &mut Node<S>, harvest: u32) -> Result<(), Failure>
    ensures run { Reached (S.Store.own) node.old → Reached (S.Store.own) node.new }
{
    let mut report = [0; TAPS];
    let (loss, intake) = node.tick(harvest, &mut report)?;
    println!(rt; "A tick with a harvest of {harvest} loses {loss} and takes in {intake}.")?;
    Ok(())
}

// Requests a grant from the root, and settles it with all used: its slip is out, so that is not refused.
fn spend<S: Store>(rt: &impl Print, node: &mut Node<S>, amount: u32) -> Result<(), Failure>
    ensures run { Reached (S.Store.own) node.old → Reached (S.Store.own) node.new }
{
    match node.grant(ROOT_TASK, ROOT, amount) {
        Ok(slip) => match node.settle(slip, amount) {
            Ok(lost) => {
                println!(rt; "A grant of {amount} is settled with all used, and {lost} are lost.")?
            }
            Err((_, _slip)) => unreachable!(),
        },
        Err(denial) => {
            let number = denial.number();
            println!(rt; "A grant of {amount} is denied with refusal {number}: {denial}.")?;
        }
    }
    Ok(())
}

// What of a slip returns to the store, by its amount, what was used and what was lost.
fn returned(amount: u32, used: u32, lost: u32) -> u32
    ensures result { result ≡ amount - used - lost }
{
    amount.saturating_sub(used).saturating_sub(lost)
}

// The bank fills while a slip is out, so that not all that is unused finds room again. A tick leaves the slip out.
fn tell_settlement(rt: &impl Print, bank: Bank) -> Result<(), Failure> {
    let mut node = Node::new(bank);
    tick(rt, &mut node, 6)?;
    let slip = node.grant(ROOT_TASK, ROOT, 5)?;
    let mut report = [0; TAPS];
    let ticked = node.tick(4, &mut report);
    let lost = match node.settle(slip, 2) {
        Ok(lost) => lost,
        Err((_, _slip)) => unreachable!(),
    };
    let (_, intake) = ticked?;
    println!(rt; "While a slip for 5 is out, a tick takes in {intake}.")?;
    let back = returned(5, 2, lost);
    println!(rt; "The slip is settled with 2 used: {back} returns and {lost} are lost.")?;
    Ok(())
}

pub(crate) fn tell_bank(rt: &impl Print) -> Result<(), Failure> {
    let mut bank = Bank::new(&[5, 3, 2])?;
    let taken = bank.charge(7);
    println!(rt; "A bank with cells of 5, 3 and 2 takes in {taken} and holds {bank}.")?;
    bank.draw(3)?;
    println!(rt; "After a draw of 3 it holds {bank}.")?;
    tell_settlement(rt, bank)
}

pub(crate) fn tell_layers(rt: &impl Print) -> Result<(), Failure> {
    println!(rt; "A capacitor of 25 stands under a floor of 4, under a leakage of 1000 parts.")?;
    let floor = Floor::new(4).over(Capacitor::new(25)?);
    let leakage = Leakage::new(1_000)?.over(floor);
    let mut node = Node::new(leakage);
    tick(rt, &mut node, 25)?;
    tick(rt, &mut node, 0)?;
    tick(rt, &mut node, 0)?;
    spend(rt, &mut node, 18)?;
    spend(rt, &mut node, 17)?;
    tick(rt, &mut node, 0)
}
