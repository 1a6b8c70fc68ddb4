//! Marks on numbers, a bit each.
ghost use Rattle.std.specs.Prelude.{◌≡◌, ℕ, ◌*◌, ◌<◌, true, false, ◌||◌, length, Decides, ◌==◌, slice_index};
ghost use Rattle.worlds.specs.Entries.{marked, BitsWithin};

use terms::ClassSet;

/// A word has this many bits.
pub(crate) const WORD_BITS: usize = 64;

/// Whether each bit that is 1 in a word is 1 in another.
fn is_within(word: u64, there: u64) -> bool
    ensures { Decides result (BitsWithin word there) }
{
    ClassSet::from_bits(word).is_subset(ClassSet::from_bits(there))
}

/// Which of the numbers below 64 × `N` are marked.
#[derive(Clone, Copy)]
pub struct Marks<const N: usize> {
    words: [u64; N],
    ghost ok: { length words ≡ N },
}

impl<const N: usize> Marks<N> {
    /// No mark.
    pub fn new() -> Self
        ensures { (j : ℕ) → marked result.words j ≡ false }
    {
        Marks { words: [0; N] }
    }

    /// Marks a number.
    pub fn set(&mut self, number: usize)
        requires { number < 64 * N }
        ensures { (j : ℕ) → marked self.new.words j ≡ (j == number || marked self.old.words j) }
    {
        let word = ClassSet::from_bits(self.word(number / WORD_BITS));
        self.words[number / WORD_BITS] = word.with((number % WORD_BITS) as u8).bits();
    }

    /// Whether a number is marked.
    pub fn has(&self, number: usize) -> bool
        requires { number < 64 * N }
        ensures { result ≡ marked self.now.words number }
    {
        ClassSet::from_bits(self.word(number / WORD_BITS)).contains((number % WORD_BITS) as u8)
    }

    /// The marks of 64 numbers, the lowest in bit 0: word `at` is of those from 64 × `at` on.
    pub fn word(&self, at: usize) -> u64
        requires { at < N }
        ensures { result ≡ slice_index self.now.words at }
    {
        self.words[at]
    }

    /// Whether each number that is marked is marked there too.
    pub fn is_subset(&self, other: &Marks<N>) -> bool
        ensures { Decides result ((j : ℕ) → marked self.now.words j ≡ true → marked other.now.words j ≡ true) }
    {
        let mut pairs = self.words.iter().zip(&other.words);
        pairs.all(|(word, there)| is_within(*word, *there))
    }
}
