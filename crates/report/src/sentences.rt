//! How axioms read as lines of text.
ghost use Rattle.std.specs.Prelude.{◌≡◌, [], ◌++◌, codes, OnOk};
ghost use Rattle.terms.specs.declared.axioms.Axiom.TheVariants.{Inclusion, ExistsLower, RoleInclusion};
ghost use Rattle.sheets.specs.Held.{held};
ghost use Rattle.report.specs.Sentences.{class_name, role_name, listed, restriction, sentence, feed};
ghost use Rattle.report.specs.Writing.{Adds};

use sheets::Sheet;
use std::alloc::{AllocError, Global};
use terms::{Axiom, ClassSet};

/// Sentences about axioms, one behind the other, by the names of a sheet.
#[derive(Drop)]
pub struct Sentences<'a> {
    out: Vec<u8>,
    sheet: &'a Sheet,
}

impl<'a> Sentences<'a> {
    /// No sentences yet.
    pub fn new(alloc: Global, sheet: &'a Sheet) -> Self
        ensures empty { result.out.items ≡ [] }
        ensures sheet { result.sheet.now ≡ sheet.now }
    {
        Sentences {
            out: Vec::new(alloc),
            sheet,
        }
    }

    /// The bytes of the sentences.
    pub fn as_bytes(&self) -> &[u8]
        ensures { result.now ≡ self.now.out.items }
    {
        &self.out
    }

    /// Writes bytes.
    fn bytes(&mut self, bytes: &[u8]) -> Result<(), AllocError>
        ensures { OnOk result (Adds self.old bytes.now self.new) }
    {
        self.out.extend_from_slice(bytes)
    }

    /// Writes the name of a class.
    fn class(&mut self, class: u8) -> Result<(), AllocError>
        ensures { OnOk result (Adds self.old (class_name (held self.old.sheet.now) class) self.new) }
    {
        self.bytes(self.sheet.class_name(class).unwrap_or(b""))
    }

    /// Writes the name of a role.
    fn role(&mut self, role: u8) -> Result<(), AllocError>
        ensures { OnOk result (Adds self.old (role_name (held self.old.sheet.now) role) self.new) }
    {
        self.bytes(self.sheet.role_name(role).unwrap_or(b""))
    }

    /// Writes the names of the classes of a set, rising, with a joint between them, or a word where there is none.
    fn set(&mut self, set: ClassSet, joint: &[u8], none: &[u8]) -> Result<(), AllocError>
        ensures { OnOk result (Adds self.old (listed (held self.old.sheet.now) joint.now none.now set.bits) self.new) }
    {
        let mut classes = set.classes();
        let Some(first) = classes.next() else {
            return self.bytes(none);
        };
        self.class(first)?;
        for class in classes {
            self.bytes(joint)?;
            self.class(class)?;
        }
        Ok(())
    }

    /// Writes a role, " in " and a class.
    fn successor(&mut self, role: u8, filler: u8) -> Result<(), AllocError>
        ensures { OnOk result (Adds self.old (role_name (held self.old.sheet.now) role ++ (codes " in " ++ class_name (held self.old.sheet.now) filler)) self.new) }
    {
        self.role(role)?;
        self.bytes(b" in ")?;
        self.class(filler)
    }

    /// Writes a class, a word, and which successors.
    fn restriction(
        &mut self,
        class: u8,
        word: &[u8],
        role: u8,
        filler: u8,
    ) -> Result<(), AllocError>
        ensures { OnOk result (Adds self.old (restriction (held self.old.sheet.now) class word.now role filler) self.new) }
    {
        self.class(class)?;
        self.bytes(word)?;
        self.successor(role, filler)
    }

    /// Writes the sentence of an inclusion.
    fn inclusion(&mut self, lower: ClassSet, upper: ClassSet) -> Result<(), AllocError>
        ensures { OnOk result (Adds self.old (sentence (held self.old.sheet.now) (Inclusion lower upper)) self.new) }
    {
        self.set(lower, b" and ", b"anything")?;
        self.bytes(b" under ")?;
        self.set(upper, b" or ", b"nothing")
    }

    /// Writes the sentence of an existential restriction on the left.
    fn exists_lower(&mut self, role: u8, filler: u8, upper: u8) -> Result<(), AllocError>
        ensures { OnOk result (Adds self.old (sentence (held self.old.sheet.now) (ExistsLower role filler upper)) self.new) }
    {
        self.bytes(b"anything with some ")?;
        self.successor(role, filler)?;
        self.bytes(b" under ")?;
        self.class(upper)
    }

    /// Writes the sentence of a role inclusion.
    fn role_inclusion(&mut self, sub: u8, sup: u8) -> Result<(), AllocError>
        ensures { OnOk result (Adds self.old (sentence (held self.old.sheet.now) (RoleInclusion sub sup)) self.new) }
    {
        self.bytes(b"role ")?;
        self.role(sub)?;
        self.bytes(b" under ")?;
        self.role(sup)
    }

    /// Writes the sentence of an axiom.
    fn axiom(&mut self, axiom: Axiom) -> Result<(), AllocError>
        ensures { OnOk result (Adds self.old (sentence (held self.old.sheet.now) «axiom») self.new) }
    {
        match axiom {
            Axiom::Inclusion { lower, upper } => self.inclusion(lower, upper),
            Axiom::Exists {
                lower,
                role,
                filler,
            } => self.restriction(lower, b" has some ", role, filler),
            Axiom::ExistsLower {
                role,
                filler,
                upper,
            } => self.exists_lower(role, filler, upper),
            Axiom::Forall {
                lower,
                role,
                filler,
            } => self.restriction(lower, b" has every ", role, filler),
            Axiom::RoleInclusion { sub, sup } => self.role_inclusion(sub, sup),
        }
    }

    /// Writes the sentence of an axiom and a line feed.
    pub fn line(&mut self, axiom: Axiom) -> Result<(), AllocError>
        ensures { OnOk result (Adds self.old (sentence (held self.old.sheet.now) «axiom» ++ feed) self.new) }
    {
        self.axiom(axiom)?;
        self.bytes(b"\n")
    }
}
