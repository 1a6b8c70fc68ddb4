//! The closure, worked out naively: every rule of docs/closure.md is tried on all that is there, round after round, until nothing is new.
//!
//! None of the engine's own rules, tables or loops is used here, but its records, to say what a member is.
use arrayvec::ArrayVec;
use tables::{ClauseRecord, ContextRecord, Counts, RolePart};
use terms::{Axiom, ClassSet};

/// Room for so many contexts.
const MOST_CONTEXTS: usize = 32;

/// Room for so many clauses.
const MOST_CLAUSES: usize = 256;

/// The members found so far, each once, the goal first.
#[derive(Drop)]
pub struct Naive {
    pub contexts: ArrayVec<ContextRecord, MOST_CONTEXTS>,
    pub clauses: ArrayVec<ClauseRecord, MOST_CLAUSES>,
    /// Whether some that were found had no room.
    // A state of the whole closure, and of none of its members.
    pub full: bool,
}

/// The set of one class, or of none where the number is too high.
fn only(class: u8) -> ClassSet {
    if class < ClassSet::MOST {
        ClassSet::single(class)
    } else {
        ClassSet::empty()
    }
}

/// What a clause leaves without its head, where it is of the context, has no role part and has that head.
fn rest(clause: ClauseRecord, context: u16, class: u8) -> Option<ClassSet> {
    if clause.context != context || clause.part.is_some() {
        return None;
    }
    let head = clause.classes.highest()?;
    if head == class {
        Some(clause.classes.without(head))
    } else {
        None
    }
}

/// Whether a chain of role inclusions leads from one role to the other.
fn reaches(axioms: &[Axiom], from: u8, to: u8) -> bool {
    let mut reached = only(from);
    for _ in 0..16 {
        for axiom in axioms {
            if let Axiom::RoleInclusion { sub, sup } = axiom {
                if reached.contains(*sub) {
                    reached = reached.union(only(*sup));
                }
            }
        }
    }
    reached.contains(to)
}

/// Puts a record that is new at the end of a list, and says whether there was room for it.
fn enter<R: PartialEq + Copy, const N: usize>(list: &mut ArrayVec<R, N>, record: R) -> bool {
    list.contains(&record) || list.try_push(record).is_ok()
}

// The rules read by slot, here and below, since they see what they have just added.
impl Naive {
    /// The goal alone.
    pub fn new(goal: ContextRecord) -> Naive {
        let mut contexts = ArrayVec::new();
        let full = !enter(&mut contexts, goal);
        Naive {
            contexts,
            clauses: ArrayVec::new(),
            full,
        }
    }

    /// How many members there are.
    pub fn counts(&self) -> Counts {
        Counts {
            contexts: self.contexts.len(),
            clauses: self.clauses.len(),
        }
    }

    /// Where a context stands.
    pub fn context_slot(&self, record: ContextRecord) -> Option<u16> {
        let slot = self.contexts.iter().position(|other| *other == record)?;
        u16::try_from(slot).ok()
    }

    /// Whether the clause is a member.
    pub fn has_clause(&self, record: ClauseRecord) -> bool {
        self.clauses.contains(&record)
    }

    /// What the clause in a slot leaves without its head, where it is of the context, has no role part and has that head.
    fn rest_at(&self, slot: usize, context: u16, class: u8) -> Option<ClassSet> {
        rest(*self.clauses.get(slot)?, context, class)
    }

    /// Adds a clause of the context.
    fn add(&mut self, context: u16, classes: ClassSet, part: Option<RolePart>) {
        let record = ClauseRecord {
            context,
            classes,
            part,
        };
        self.full |= !enter(&mut self.clauses, record);
    }

    /// Adds a clause of the context with a role part, and the target of the role part.
    fn add_toward(&mut self, context: u16, classes: ClassSet, role: u8, target: ContextRecord) {
        self.full |= !enter(&mut self.contexts, target);
        if let Some(target) = self.context_slot(target) {
            let part = RolePart {
                role,
                context: target,
            };
            self.add(context, classes, Some(part));
        }
    }

    /// What is left of the clause in a slot where it is one for the class; of no class nothing is left, in slot 0 alone.
    fn chosen(&self, slot: usize, context: u16, class: Option<u8>) -> Option<ClassSet> {
        match class {
            Some(class) => self.rest_at(slot, context, class),
            None if slot == 0 => Some(ClassSet::empty()),
            None => None,
        }
    }

    /// Adds `whole` with what is left of three clauses of the context, one for each class, in every choice; no class needs no clause.
    fn add_choices(&mut self, context: u16, lower: ClassSet, whole: ClassSet) {
        let mut classes = lower.classes();
        let [one, two, three] = [classes.next(), classes.next(), classes.next()];
        for i in 0..MOST_CLAUSES {
            let Some(first) = self.chosen(i, context, one) else {
                continue;
            };
            for j in 0..MOST_CLAUSES {
                let Some(second) = self.chosen(j, context, two) else {
                    continue;
                };
                for k in 0..MOST_CLAUSES {
                    if let Some(third) = self.chosen(k, context, three) {
                        self.add(context, whole.union(first).union(second).union(third), None);
                    }
                }
            }
        }
    }

    /// The rules that look at a context's own clauses without role part.
    fn apply_plain(&mut self, context: u16, axiom: Axiom) {
        match axiom {
            Axiom::Inclusion { lower, upper } => self.add_choices(context, lower, upper),
            Axiom::Exists {
                lower,
                role,
                filler,
            } => {
                let target = ContextRecord {
                    held: only(filler),
                    denied: ClassSet::empty(),
                };
                for slot in 0..MOST_CLAUSES {
                    if let Some(rest) = self.rest_at(slot, context, lower) {
                        self.add_toward(context, rest, role, target);
                    }
                }
            }
            _ => (),
        }
    }

    /// The rules that start from a clause with a role part, which leads to the target.
    fn apply_toward(
        &mut self,
        axioms: &[Axiom],
        clause: ClauseRecord,
        part: RolePart,
        target: ContextRecord,
        axiom: Axiom,
    ) {
        match axiom {
            Axiom::ExistsLower {
                role,
                filler,
                upper,
            } => {
                let target = ContextRecord {
                    held: target.held,
                    denied: target.denied.union(only(filler)),
                };
                let classes = clause.classes.union(only(upper));
                for slot in 0..MOST_CLAUSES {
                    let other = self.rest_at(slot, part.context, filler);
                    if other.is_some() && reaches(axioms, part.role, role) {
                        self.add_toward(clause.context, classes, part.role, target);
                    }
                }
            }
            Axiom::Forall {
                lower,
                role,
                filler,
            } => {
                let target = ContextRecord {
                    held: target.held.union(only(filler)),
                    denied: target.denied,
                };
                for slot in 0..MOST_CLAUSES {
                    let Some(rest) = self.rest_at(slot, clause.context, lower) else {
                        continue;
                    };
                    if reaches(axioms, part.role, role) {
                        self.add_toward(
                            clause.context,
                            clause.classes.union(rest),
                            part.role,
                            target,
                        );
                    }
                }
            }
            _ => (),
        }
    }

    /// The rules of held and denied classes.
    fn apply_goal(&mut self, context: u16, record: ContextRecord) {
        for class in record.held.classes() {
            self.add(context, only(class), None);
        }
        for class in record.denied.classes() {
            for slot in 0..MOST_CLAUSES {
                if let Some(rest) = self.rest_at(slot, context, class) {
                    self.add(context, rest, None);
                }
            }
        }
    }

    /// Whether the context has the empty clause.
    pub fn is_impossible(&self, context: u16) -> bool {
        self.has_clause(ClauseRecord::lone(context, ClassSet::empty()))
    }

    /// Tries every rule on all that is there.
    fn round(&mut self, axioms: &[Axiom]) {
        for context in 0..MOST_CONTEXTS as u16 {
            if let Some(record) = self.contexts.get(usize::from(context)).copied() {
                self.apply_goal(context, record);
                for axiom in axioms {
                    self.apply_plain(context, *axiom);
                }
            }
        }
        for slot in 0..MOST_CLAUSES {
            let Some(clause) = self.clauses.get(slot).copied() else {
                continue;
            };
            let Some(part) = clause.part else {
                continue;
            };
            if self.is_impossible(part.context) {
                self.add(clause.context, clause.classes, None);
            }
            if let Some(target) = self.contexts.get(usize::from(part.context)).copied() {
                for axiom in axioms {
                    self.apply_toward(axioms, clause, part, target, *axiom);
                }
            }
        }
    }

    /// Rounds until nothing is new. Each but the last adds a member, so there are fewer of them than there is room for members.
    pub fn saturate(&mut self, axioms: &[Axiom]) {
        for _ in 0..MOST_CONTEXTS + MOST_CLAUSES {
            let before = self.counts();
            self.round(axioms);
            if self.counts() == before {
                break;
            }
        }
    }
}
