// How bytes are added at the end.
ghost use Rattle.std.specs.Prelude.{◌≡◌, ℕ, ◌+◌, ◌<◌, ◌≤◌, List, [], ◌∷◌, ◌++◌, take, slice_set};
ghost use Rattle.frame.specs.Prefix.{kept, Begins};

use super::Prefix;

impl<const N: usize> Prefix<N> {
    // Nothing is given yet.
    pub fn new() -> Prefix<N>
        ensures result { kept result ≡ [] }
    {
        Prefix {
            array: [0; N],
            len: 0,
        }
    }

    // The first bytes of an array.
    pub(crate) fn of_array(array: [u8; N], len: usize) -> Prefix<N>
        requires { len ≤ N }
        ensures result { kept result ≡ take len array.entry }
    {
        Prefix { array, len }
    }

    // Keeps one byte more, where there is room for it.
    fn keep(&mut self, b: u8)
        requires { self.old.len < N }
        ensures array { self.new.array ≡ slice_set self.old.array self.old.len b }
        ensures len { self.new.len ≡ self.old.len + 1 }
    {
        self.array[self.len] = b;
        self.len += 1;
    }

    // Takes one byte more, and keeps it if it is among the first N.
    pub fn push(&mut self, b: u8)
        ensures after { kept self.new ≡ take N (kept self.old ++ b ∷ []) }
        ensures whole { (xs : List ℕ) → Begins xs self.old → Begins (xs ++ b ∷ []) self.new }
    {
        if self.len < N {
            self.keep(b);
        }
    }

    // Takes more bytes, and keeps those that are among the first N.
    pub fn extend(&mut self, more: &[u8])
        ensures after { kept self.new ≡ take N (kept self.old ++ more.now) }
        ensures whole { (xs : List ℕ) → Begins xs self.old → Begins (xs ++ more.now) self.new }
    {
        let taken = more.len().min(N - self.len);
        let all = &mut self.array[..];
        all[self.len..self.len + taken].copy_from_slice(&more[0..taken]);
        self.len += taken;
    }

    // Begins anew.
    pub fn clear(&mut self)
        ensures after { kept self.new ≡ [] }
    {
        self.len = 0;
    }

    pub fn as_slice(&self) -> &[u8]
        ensures result { result.now ≡ kept self.now }
    {
        let all = &self.array[..];
        &all[..self.len]
    }
}
