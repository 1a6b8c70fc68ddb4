//! For each element, its links one after the other.
ghost use Rattle.std.specs.Prelude.{◌≡◌, ℕ, ◌<◌, ◌≤◌, Some, None, length, slice_index_or};
ghost use Rattle.std.specs.Iterator.{YieldsFirst, item_count};
ghost use Rattle.worlds.specs.Slots.{number_in, numbers_in};
ghost use Rattle.worlds.specs.Entries.{Chained, Last, chain, links_from, no_link};

use crate::link::Link;

/// The number of a link, or none, for each of so many.
// One more than the number, with 0 for none: an option has a tag of its own and takes twice the room.
#[derive(Clone, Copy)]
pub struct Numbers<const N: usize> {
    items: [u16; N],
    ghost ok: { length items ≡ N },
}

impl<const N: usize> Numbers<N> {
    /// None for each.
    fn new() -> Self
        ensures { (j : ℕ) → slice_index_or (numbers_in result.items) j None ≡ None }
    {
        Numbers { items: [0; N] }
    }
}

/// Links between at most 4,096 elements, with the number of each element's last link, and for each link the number of the one before
/// it from the same element.
#[derive(Clone, Copy)]
pub struct Chains<'a> {
    // The links are lent and stay as they are, so the number that belongs to each stands in an array beside them.
    links: &'a [Link],
    last: Numbers<4096>,
    previous: Numbers<16384>,
    ghost few: { length links.now ≤ 16384 },
    ghost starts: { (i : ℕ) → i < length links.now → (slice_index_or links.now i no_link).from < 4096 },
    ghost lasts: { Last links.now (numbers_in last.items) (length links.now) },
    ghost chained: { Chained links.now (numbers_in previous.items) (length links.now) },
}

impl<'a> Chains<'a> {
    /// Chains the links.
    pub fn new(links: &'a [Link]) -> Self
        requires few { length links.now ≤ 16384 }
        requires starts { (i : ℕ) → i < length links.now → (slice_index_or links.now i no_link).from < 4096 }
        ensures { result.links.now ≡ links.now }
    {
        let mut last = Numbers::new();
        let mut previous = Numbers::new();
        for (i, link) in links.iter().enumerate() {
            let from = link.from as usize;
            previous.items[i] = last.items[from];
            last.items[from] = i as u16 + 1;
        }
        Chains {
            links,
            last,
            previous,
        }
    }

    /// The links from an element, from the last to the first.
    pub fn links_of<'c>(&'c self, element: u32) -> LinksOf<'c, 'a>
        ensures { chain result.chains.now.links.now (number_in result.at) ≡ links_from self.now.links.now element (length self.now.links.now) }
    {
        LinksOf {
            chains: self,
            at: self.last.items.get(element as usize).copied().unwrap_or(0),
        }
    }
}

/// Goes through the links from an element, from the last to the first.
#[derive(Drop)]
pub struct LinksOf<'c, 'a> {
    chains: &'c Chains<'a>,
    // One more than the number of the next link, or 0 at the end.
    at: u16,
    ghost ok: { (k : ℕ) → number_in at ≡ Some k → k < length chains.now.links.now },
}

impl<'c, 'a> Iterator for LinksOf<'c, 'a> {
    type Item = Link;

    ghost remaining = { item_count (λ s. chain s.chains.now.links.now (number_in s.at)) };

    ghost next_gives = { YieldsFirst (λ s. chain s.chains.now.links.now (number_in s.at)) };

    fn next(&mut self) -> Option<Link> {
        let number = usize::from(self.at.checked_sub(1)?);
        self.at = self.chains.previous.items[number];
        Some(self.chains.links[number])
    }
}
