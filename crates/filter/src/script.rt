// What takes the lines of a script.
ghost use Rattle.std.specs.Prelude.{ℕ, List, OnOk};

use std::io;

pub trait Script {
    // What a line does: to this value, the line, that value.
    ghost hears: { Self → List ℕ → Self → Type 0 };
    // What the end of a script does, and what a flush does.
    ghost ends: { Self → Self → Type 0 };

    ghost flushes: { Self → Self → Type 0 };

    // Takes one line, without its line feed; of a line over 81 bytes, the first 81.
    fn line(&mut self, line: &[u8]) -> io::Result<()>
        ensures heard { OnOk result (hears self.old line.now self.new) };

    // The script has ended.
    fn end(&mut self) -> io::Result<()>
        ensures ended { OnOk result (ends self.old self.new) };

    // Writes out whatever has been answered so far.
    fn flush(&mut self) -> io::Result<()>
        ensures flushed { OnOk result (flushes self.old self.new) };
}
