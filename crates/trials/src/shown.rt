// Answers as the trials print them.
use frame::FrameFault;
use rates::OutOfRange;
use std::fmt;
use std::fmt::Display;

// What was answered, or the number of the refusal. What refuses a number or a call refuses a frame too, under the same number.
#[derive(Drop)]
pub(crate) struct Told<T>(pub Result<T, FrameFault>);

// By hand, as the ones after it: each is put together from a result, an option or bytes, which no derive does.
impl<T: Display> fmt::Display for Told<T> {
    fn fmt<W: fmt::Write>(&self, f: &mut fmt::Formatter<W>) -> fmt::Result {
        match &self.0 {
            Ok(answer) => write!(f, "{answer}"),
            Err(fault) => {
                let number = fault.number();
                write!(f, "refused {number}")
            }
        }
    }
}

// The number by which a constructor refuses, or 0 where it makes what is asked.
#[derive(Drop)]
pub(crate) struct Refusal(pub Option<OutOfRange>);

impl fmt::Display for Refusal {
    fn fmt<W: fmt::Write>(&self, f: &mut fmt::Formatter<W>) -> fmt::Result {
        let number = self.0.map_or(0, OutOfRange::number);
        write!(f, "{number}")
    }
}

// An answer line, with its line feed as `$`.
#[derive(Drop)]
pub(crate) struct Written<'a>(pub &'a [u8]);

impl fmt::Display for Written<'_> {
    fn fmt<W: fmt::Write>(&self, f: &mut fmt::Formatter<W>) -> fmt::Result {
        for b in self.0 {
            f.write_char(if *b == b'\n' { '$' } else { char::from(*b) })?;
        }
        Ok(())
    }
}
