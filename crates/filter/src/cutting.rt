// How a script is cut into lines.
ghost use Rattle.std.specs.Prelude.{◌≡◌, ℕ, ◌<◌, List, [], ◌++◌, length, IfSome, OnOk};
ghost use Rattle.frame.specs.Prefix.{kept, cut, HasRead};
ghost use Rattle.filter.specs.Cutting.{place, last, Led, Fed};

use crate::script::Script;
use frame::{KEPT, Line};
use memchr::memchr;
use std::io;

// The place of the first line feed.
pub fn line_end(bytes: &[u8]) -> Option<usize>
    ensures result { result ≡ place bytes.now }
    ensures within { IfSome result (λ n. n < length bytes.now) }
{
    memchr(b'\n', bytes)
}

// What a script is handed of a line.
fn front(line: &[u8]) -> &[u8]
    ensures result { result.now ≡ cut line.now }
{
    &line[..line.len().min(KEPT)]
}

// What takes the lines of a script, with what has been read of the next line.
#[derive(Drop)]
pub struct Cutter<'a, S: Script> {
    pub(crate) script: &'a mut S,
    line: Line,
}

// That it holds the same reference, each contract says: it is said of a cutter before and after a call, and a type's
// invariant of one value.
impl<'a, S: Script> Cutter<'a, S> {
    // Nothing has been read yet.
    pub fn new(script: &'a mut S) -> Cutter<'a, S>
        ensures same { result.script.ghost_name ≡ script.entry.ghost_name }
        ensures script { result.script.now ≡ script.old }
        ensures line { HasRead [] result.line }
    {
        Cutter {
            script,
            line: Line::new(),
        }
    }

    // Hands over the line that ends with these bytes, and begins the next. It is inlined, since its result is large and would
    // be copied at each line.
    #[inline(always)]
    fn finish(&mut self, end: &[u8]) -> io::Result<()>
        ensures same { self.new.script.ghost_name ≡ self.old.script.ghost_name }
        ensures heard { OnOk result (S.Script.hears self.old.script.now (cut (kept self.old.line ++ end.now)) self.new.script.now) }
        ensures after { OnOk result (kept self.new.line ≡ []) }
    {
        if self.line.as_slice().is_empty() {
            // The line lies whole in the piece, and is not copied.
            return self.script.line(front(end));
        }
        self.line.extend(end);
        self.script.line(self.line.as_slice())?;
        self.line.clear();
        Ok(())
    }

    // Hands over every line that ends in a piece of the script, and keeps what has been read of the next.
    pub fn feed(&mut self, piece: &[u8]) -> io::Result<()>
        ensures same { self.new.script.ghost_name ≡ self.old.script.ghost_name }
        ensures fed { (xs : List ℕ) → HasRead xs self.old.line → OnOk result (Fed (S.Script) self.old.script.now xs piece.now self.new.script.now self.new.line) }
    {
        let mut rest = piece;
        while let Some(end) = line_end(rest) {
            self.finish(&rest[0..end])?;
            rest = &rest[end + 1..];
        }
        self.line.extend(rest);
        Ok(())
    }

    // The script has ended: hands over the last line, if it is not empty.
    pub fn end(&mut self) -> io::Result<()>
        ensures same { self.new.script.ghost_name ≡ self.old.script.ghost_name }
        ensures heard { (xs : List ℕ) → HasRead xs self.old.line → OnOk result (Led (S.Script) self.old.script.now (last xs) self.new.script.now) }
    {
        if self.line.as_slice().is_empty() {
            return Ok(());
        }
        self.finish(&[])
    }
}

// As `Cutter::feed`, of a script and a line that are the caller's own.
pub fn feed<S: Script>(script: &mut S, line: &mut Line, piece: &[u8]) -> io::Result<()>
    ensures fed { (xs : List ℕ) → HasRead xs line.old → OnOk result (Fed (S.Script) script.old xs piece.now script.new line.new) }
{
    let mut cutter = Cutter {
        script,
        line: *line,
    };
    let result = cutter.feed(piece);
    *line = cutter.line;
    result
}
