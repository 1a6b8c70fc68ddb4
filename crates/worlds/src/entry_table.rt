//! A world in a store's entries and their links.
ghost use Rattle.std.specs.Prelude.{◌≡◌, ℕ, ◌<◌, ◌≤◌, [], ◌∷◌, length, Decides, OnErr, slice_index_or};
ghost use Rattle.std.specs.List.{AllByRecursion};
ghost use Rattle.terms.specs.Refusals.{Answers, told};
ghost use Rattle.worlds.specs.Entries.{entry_world, entry_checks, Fits, any_link, marked, no_link};
ghost use Rattle.worlds.specs.Audits.{in_world};

use crate::chains::Chains;
use crate::link::Link;
use crate::marks::Marks;
use crate::world::World;
use sources::source::MOST_ROLES;
use terms::{ClassSet, Fault, Layer, Refusal};

/// A world of at most 4,096 entries, one word of classes each, with at most 16,384 links between them. It only reads what it is
/// lent, and keeps for itself where the links of each entry are. The same link may be there more than once.
#[derive(Clone, Copy)]
pub struct EntryTable<'a> {
    classes: &'a [u64],
    chains: Chains<'a>,
    ghost sized: { (1 ≤ length classes.now) × (length classes.now ≤ 4096) },
    ghost fit: { (i : ℕ) → i < length chains.links.now → Fits (length classes.now) (slice_index_or chains.links.now i no_link) },
}

/// Whether the ends of a link are among so many entries, and its role is below 16.
fn is_fit(link: Link, entries: usize) -> bool
    ensures { Decides result (Fits entries link) }
{
    (link.from as usize) < entries && link.role < MOST_ROLES && (link.to as usize) < entries
}

/// Whether the ends of each link are among so many entries, and its role is below 16.
fn all_fit(links: &[Link], entries: usize) -> bool
    ensures { Decides result (AllByRecursion (Fits entries) links.now) }
{
    links.iter().all(|link| is_fit(*link, entries))
}

impl<'a> EntryTable<'a> {
    /// There are at most this many entries.
    pub const MOST_ENTRIES: usize = 4096;

    /// There are at most this many links.
    pub const MOST_LINKS: usize = 16384;

    /// The world of one entry, in no class and with no link.
    pub fn new() -> Self
        ensures { entry_world result.classes.now result.chains.links.now ≡ entry_world (0 ∷ []) [] }
    {
        EntryTable {
            classes: &[0],
            chains: Chains::new(&[]),
        }
    }

    /// Reads the entries and links from now on, or refuses them and stays as it was.
    pub fn open(&mut self, classes: &'a [u64], links: &'a [Link]) -> Result<(), Fault>
        ensures gives { Answers (entry_checks classes.now links.now) 0 in_world
            (λ _. entry_world self.new.classes.now self.new.chains.links.now ≡ entry_world classes.now links.now) (told result) }
        ensures kept { OnErr result (self.new ≡ self.old) }
    {
        if classes.is_empty()
            || classes.len() > Self::MOST_ENTRIES
            || links.len() > Self::MOST_LINKS
        {
            return Err(Refusal::WorldSize.at(0, Layer::World));
        }
        if !all_fit(links, classes.len()) {
            return Err(Refusal::BadLink.at(0, Layer::World));
        }
        *self = EntryTable {
            classes,
            chains: Chains::new(links),
        };
        Ok(())
    }

    /// The successors of an element by a role.
    fn successors(&self, element: u32, role: u8) -> Marks<64>
        ensures { (f : ℕ) → marked result.words f ≡ any_link self.now.chains.links.now role element f }
    {
        let mut marks = Marks::new();
        for link in self.chains.links_of(element) {
            if link.role == role {
                marks.set(link.to as usize);
            }
        }
        marks
    }
}

impl<'a> World for EntryTable<'a> {
    ghost meaning = { λ t. entry_world t.classes.now t.chains.links.now };

    fn size(&self) -> u32 {
        self.classes.len() as u32
    }

    fn classes_of(&self, element: u32) -> ClassSet {
        let bits = self.classes.get(element as usize);
        ClassSet::from_bits(bits.copied().unwrap_or(0))
    }

    fn is_linked(&self, role: u8, from: u32, to: u32) -> bool {
        let mut links = self.chains.links_of(from);
        links.any(|link| link.role == role && link.to == to)
    }

    fn some_successor(&self, element: u32, role: u8, class: u8) -> bool {
        let mut links = self.chains.links_of(element);
        links.any(|link| link.role == role && self.classes_of(link.to).contains(class))
    }

    fn every_successor(&self, element: u32, role: u8, class: u8) -> bool {
        let mut links = self.chains.links_of(element);
        links.all(|link| link.role != role || self.classes_of(link.to).contains(class))
    }

    fn successors_within(&self, element: u32, sub: u8, sup: u8) -> bool {
        let inner = self.successors(element, sub);
        let outer = self.successors(element, sup);
        inner.is_subset(&outer)
    }
}
