//! A world in the rows of a model table.
ghost use Rattle.std.specs.Prelude.{◌≡◌, ◌+◌, ◌*◌, ◌<◌, ◌≤◌, [], ◌∷◌, length, OnErr};
ghost use Rattle.terms.specs.Refusals.{Answers, told};
ghost use Rattle.worlds.specs.Models.{model_world, model_checks, row_width};
ghost use Rattle.worlds.specs.Audits.{in_world};

use crate::marks::WORD_BITS;
use crate::world::World;
use sources::source::MOST_ROLES;
use terms::{ClassSet, Fault, Layer, Refusal};

/// A row has this many words for each role: a bit for each of 256 elements.
const ROLE_WORDS: usize = 4;

/// A world of at most 256 elements in words that the caller lends, a row an element.
///
/// The row of element e begins at word e × (1 + 4 × roles). Its first word has bit a for class a, and successor f by role k is
/// bit f mod 64 of word 1 + 4 × k + (f div 64). Roles past the row's link nothing.
#[derive(Clone, Copy)]
pub struct ModelTable<'a> {
    // More words may be lent than the rows take, so the meaning of a world is said of words, roles and size together.
    words: &'a [u64],
    roles: u8,
    size: u32,
    ghost ok: { (1 ≤ size) × (size ≤ 256) × (roles ≤ 16) × (size * row_width roles ≤ length words.now) },
}

impl<'a> ModelTable<'a> {
    /// A model table has at most this many elements.
    pub const MOST: u32 = 256;

    /// How many words a row has where there are so many roles.
    pub fn row_words(roles: u8) -> usize
        ensures { result ≡ row_width roles }
    {
        1 + ROLE_WORDS * usize::from(roles)
    }

    /// The world of one element, in no class.
    pub fn new() -> Self
        ensures { model_world result.words.now result.roles result.size ≡ model_world (0 ∷ []) 0 1 }
    {
        ModelTable {
            words: &[0],
            roles: 0,
            size: 1,
        }
    }

    /// Reads the first rows of the words from now on, as a world with so many roles and elements, or refuses and stays as it was.
    pub fn open(&mut self, words: &'a [u64], roles: u32, size: u32) -> Result<(), Fault>
        ensures gives { Answers (model_checks words.now roles size) 0 in_world
            (λ _. model_world self.new.words.now self.new.roles self.new.size ≡ model_world words.now roles size) (told result) }
        ensures kept { OnErr result (self.new ≡ self.old) }
    {
        if roles > u32::from(MOST_ROLES)
            || words.len() < size as usize * Self::row_words(roles as u8)
        {
            return Err(Refusal::TableSize.at(0, Layer::World));
        }
        if size == 0 || size > Self::MOST {
            return Err(Refusal::WorldSize.at(0, Layer::World));
        }
        *self = ModelTable {
            words,
            roles: roles as u8,
            size,
        };
        Ok(())
    }

    /// The word at which the row of an element begins.
    fn row(&self, element: u32) -> usize
        requires { element < self.now.size }
        ensures start { result ≡ element * row_width self.now.roles }
        ensures within { result + row_width self.now.roles ≤ length self.now.words.now }
    {
        element as usize * Self::row_words(self.roles)
    }
}

impl<'a> World for ModelTable<'a> {
    ghost meaning = { λ t. model_world t.words.now t.roles t.size };

    fn size(&self) -> u32 {
        self.size
    }

    fn classes_of(&self, element: u32) -> ClassSet {
        if element >= self.size {
            return ClassSet::empty();
        }
        ClassSet::from_bits(self.words[self.row(element)])
    }

    fn is_linked(&self, role: u8, from: u32, to: u32) -> bool {
        if role >= self.roles || from >= self.size || to >= self.size {
            return false;
        }
        let to = to as usize;
        let part = 1 + ROLE_WORDS * usize::from(role) + to / WORD_BITS;
        let word = self.words[self.row(from) + part];
        ClassSet::from_bits(word).contains((to % WORD_BITS) as u8)
    }
}
