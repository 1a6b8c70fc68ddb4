//! Sets of classes, one bit a class.
ghost use Rattle.std.specs.Prelude.{◌≡◌, ◌<◌, Decides, MatchOption};
ghost use Rattle.terms.specs.Sets.{has, only, join, without, Within, Meet, Below, Highest, size, Rises};
ghost use Rattle.std.specs.Iterator.{at_most};

/// A set of classes, which are numbers below 64.
#[derive(Clone, Copy, PartialEq, Eq, Debug, Default)]
pub struct ClassSet {
    bits: u64,
}

impl ClassSet {
    /// There are at most this many classes.
    pub const MOST: u8 = 64;

    /// The set of no class.
    pub fn empty() -> ClassSet
        ensures { result.bits ≡ 0 }
    {
        ClassSet { bits: 0 }
    }

    /// The set with the classes whose bits are 1: class `a` has the bit worth 2 to the power `a`.
    // A method and no `From`, as for floats: its name says which number is meant.
    pub fn from_bits(bits: u64) -> ClassSet
        ensures { result.bits ≡ bits }
    {
        ClassSet { bits }
    }

    /// The bits of the set's classes.
    pub fn bits(self) -> u64
        ensures { result ≡ self.bits }
    {
        let ClassSet { bits: mask } = self;
        mask
    }

    /// The set of one class.
    pub fn single(class: u8) -> ClassSet
        requires { class < 64 }
        ensures { result.bits ≡ only class }
    {
        ClassSet { bits: 1 << class }
    }

    /// Whether the class is in the set; no set has a class from 64 up.
    pub fn contains(self, class: u8) -> bool
        ensures { result ≡ has self.bits class }
    {
        class < Self::MOST && self.bits & (1 << class) != 0
    }

    /// The set and the class.
    pub fn with(self, class: u8) -> ClassSet
        requires { class < 64 }
        ensures { result.bits ≡ join self.bits (only class) }
    {
        self.union(ClassSet::single(class))
    }

    /// The set less the class.
    pub fn without(self, class: u8) -> ClassSet
        requires { class < 64 }
        ensures { result.bits ≡ without self.bits class }
    {
        ClassSet {
            bits: self.bits & !(1 << class),
        }
    }

    /// The classes in either set.
    pub fn union(self, other: ClassSet) -> ClassSet
        ensures { result.bits ≡ join self.bits other.bits }
    {
        ClassSet {
            bits: self.bits | other.bits,
        }
    }

    /// Whether some class is in both sets.
    pub fn meets(self, other: ClassSet) -> bool
        ensures { Decides result (Meet self.bits other.bits) }
    {
        self.bits & other.bits != 0
    }

    /// Whether each class of the set is in the other.
    pub fn is_subset(self, other: ClassSet) -> bool
        ensures { Decides result (Within self.bits other.bits) }
    {
        self.bits & other.bits == self.bits
    }

    /// Whether the set has no class.
    pub fn is_empty(self) -> bool
        ensures { Decides result (self.bits ≡ 0) }
    {
        self.bits == 0
    }

    /// Whether each class of the set is below `count`.
    pub fn is_below(self, count: u8) -> bool
        ensures { Decides result (Below count self.bits) }
    {
        self.highest().is_none_or(|class| class < count)
    }

    /// The highest class, if there is any.
    pub fn highest(self) -> Option<u8>
        ensures { MatchOption result (self.bits ≡ 0) (λ a. Highest self.bits a × (a < 64)) }
    {
        if self.is_empty() {
            None
        } else {
            Some(self.bits.ilog2() as u8)
        }
    }

    /// How many classes the set has.
    pub fn len(self) -> u32
        ensures { result ≡ size self.bits }
    {
        self.bits.count_ones()
    }

    /// The classes of the set, rising.
    pub fn classes(self) -> Classes
        ensures { result.rest ≡ self }
    {
        Classes { rest: self }
    }
}

/// Goes through a set by rising class.
#[derive(Drop)]
pub struct Classes {
    rest: ClassSet,
}

impl Iterator for Classes {
    type Item = u8;

    ghost remaining = { λ s. at_most s.rest.bits };

    ghost next_gives = { λ s r t. Rises s.rest.bits r t.rest.bits };

    fn next(&mut self) -> Option<u8> {
        if self.rest.is_empty() {
            return None;
        }
        let class = self.rest.bits.trailing_zeros() as u8;
        self.rest = self.rest.without(class);
        Some(class)
    }
}
