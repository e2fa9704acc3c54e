// The table at the end of a script.
use recount::{Recount, Row};
use std::fmt;

// A word for each refusal, by the number under which the recount has it.
const WORDS: [(u8, &str); 17] = [
    (1, "short array"),
    (2, "damaged line"),
    (3, "unknown frame"),
    (4, "out of turn"),
    (5, "out of range"),
    (6, "not open"),
    (7, "open already"),
    (8, "no such grant"),
    (9, "not the owner"),
    (10, "same ends"),
    (11, "above the limit"),
    (12, "in use"),
    (13, "overused"),
    (14, "64 grants open"),
    (15, "exhausted"),
    (16, "level too low"),
    (17, "store refused"),
];

// What the lines of a script come to.
#[derive(Clone, Copy)]
pub struct Table<'a>(pub &'a Recount);

impl Table<'_> {
    // How many lines there were, and the refused ones by their number.
    fn tell_lines<W: fmt::Write>(self, f: &mut fmt::Formatter<W>) -> fmt::Result {
        let lines = self.0.lines();
        let accepted = self.0.accepted();
        let refused = lines.saturating_sub(accepted);
        write!(
            f,
            "\nlines {lines}, accepted {accepted}, refused {refused}\n"
        )?;
        f.write_str("\nrefused       times  why\n")?;
        for (number, why) in &WORDS {
            let times = self.0.refused(*number);
            if times > 0 {
                write!(f, "{number:>7}  {times:>10}  {why}\n")?;
            }
        }
        Ok(())
    }

    // The denials of a task under a number, by reserve. The number is what the recount is asked by, and is told.
    fn tell_task<W: fmt::Write>(
        self,
        f: &mut fmt::Formatter<W>,
        number: u8,
        task: u8,
    ) -> fmt::Result {
        for reserve in 0..=u8::MAX {
            let Row { times, lacking } = self.0.denied(number, task, reserve);
            if times > 0 {
                write!(
                    f,
                    "{number:>6}  {task:>4}  {reserve:>7}  {times:>10}  {lacking:>10}\n"
                )?;
            }
        }
        Ok(())
    }

    // The denials under a number, by task and reserve; it is a number here for the same reason.
    fn tell_number<W: fmt::Write>(self, f: &mut fmt::Formatter<W>, number: u8) -> fmt::Result {
        for task in 0..=u8::MAX {
            self.tell_task(f, number, task)?;
        }
        Ok(())
    }

    // The denials under 16 and 17, and their sum.
    fn tell_denials<W: fmt::Write>(self, f: &mut fmt::Formatter<W>) -> fmt::Result {
        f.write_str("\ndenied  task  reserve       times     lacking\n")?;
        self.tell_number(f, 16)?;
        self.tell_number(f, 17)?;
        let Row { times, lacking } = self.0.denials();
        write!(f, "   all                 {times:>10}  {lacking:>10}\n\n")
    }
}

// By hand: no derive writes a table.
impl fmt::Display for Table<'_> {
    fn fmt<W: fmt::Write>(&self, f: &mut fmt::Formatter<W>) -> fmt::Result {
        self.tell_lines(f)?;
        self.tell_denials(f)
    }
}
