//! The audit of a world against the axioms of a source.
ghost use Rattle.std.specs.Prelude.{◌≡◌, Option, Decides, MatchOption};
ghost use Rattle.worlds.specs.declared.audit.Breach.{Breach as BreachOf};
ghost use Rattle.worlds.specs.Worlds.{Keeps, Holds};
ghost use Rattle.worlds.specs.Audits.{Audited, LowestBreaking};

use crate::world::World;
use sources::Source;
use terms::Axiom;

/// The number of the first axiom that is broken, and the lowest element that breaks it.
#[derive(Clone, Copy, PartialEq, Eq, Debug)]
pub struct Breach {
    pub number: usize,
    pub element: u32,
}

/// Whether the axiom's sentence is true of the element.
fn keeps<W: World>(world: &W, element: u32, axiom: Axiom) -> bool
    ensures { Decides result (Keeps (W.World.meaning world.now) element «axiom») }
{
    match axiom {
        Axiom::Inclusion { lower, upper } => {
            let classes = world.classes_of(element);
            !lower.is_subset(classes) || classes.meets(upper)
        }
        Axiom::Exists {
            lower,
            role,
            filler,
        } => !world.classes_of(element).contains(lower)
            || world.some_successor(element, role, filler),
        Axiom::ExistsLower {
            role,
            filler,
            upper,
        } => world.classes_of(element).contains(upper)
            || !world.some_successor(element, role, filler),
        Axiom::Forall {
            lower,
            role,
            filler,
        } => !world.classes_of(element).contains(lower)
            || world.every_successor(element, role, filler),
        Axiom::RoleInclusion { sub, sup } => world.successors_within(element, sub, sup),
    }
}

/// The lowest element that breaks the axiom, if any does.
fn lowest_breaking<W: World>(world: &W, axiom: Axiom) -> Option<u32>
    ensures { MatchOption result (Holds (W.World.meaning world.now) «axiom») (λ e. LowestBreaking (W.World.meaning world.now) «axiom» e) }
{
    // An audit goes through axioms and elements by their numbers, in order.
    for element in 0..world.size() {
        if !keeps(world, element, axiom) {
            return Some(element);
        }
    }
    None
}

/// Goes through the axioms in order: none if the world obeys them all, or which is the first that it breaks, and where.
pub fn audit<S: Source, W: World>(source: &S, world: &W) -> Option<Breach>
    ensures gives { Audited (S.Source.meaning source.now).axioms (W.World.meaning world.now) result }
    ensures only { (a : Option BreachOf) → Audited (S.Source.meaning source.now).axioms (W.World.meaning world.now) a → a ≡ result }
{
    for number in 0..source.axiom_count() {
        let axiom = source.axiom_at(number).unwrap();
        if let Some(element) = lowest_breaking(world, axiom) {
            return Some(Breach { number, element });
        }
    }
    None
}
