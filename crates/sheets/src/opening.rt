//! Opening a sheet.
ghost use Rattle.std.specs.Prelude.{◌≡◌, [], ◌∷◌, ◌++◌, Err, Decides, MatchResult, OnErr};
ghost use Rattle.std.specs.List.{ContainsAt};
ghost use Rattle.terms.specs.Refusals.{Told, told, done, Answers};
ghost use Rattle.sheets.specs.Sheets.{Contents, in_sheet, nothing, more, an_axiom, name_checks, entry_checks, Gives, outcome};
ghost use Rattle.sheets.specs.Lists.{spelled};
ghost use Rattle.sheets.specs.Held.{held, entry_of};

use crate::contents::Sheet;
use crate::field::Reader;
use crate::item::Item;
use crate::name;
use crate::name::Name;
use crate::statement::Statement;
use arrayvec::ArrayVec;
use sources::Source;
use terms::{Axiom, Fault, Layer, Refusal};

/// Whether one of the names is spelled so.
fn is_among(names: &[Name], name: &Name) -> bool
    ensures { Decides result (ContainsAt (spelled names.now) name.now.items) }
{
    names.contains(name)
}

/// Puts a name at the end of the names.
fn declare<const N: usize>(
    names: &mut ArrayVec<Name, N>,
    name: Name,
    place: usize,
) -> Result<(), Fault>
    ensures answers { Answers (name_checks (spelled names.old.items) N name.items) place in_sheet
        (λ _. spelled names.new.items ≡ spelled names.old.items ++ name.items ∷ [])
        (told result) }
    ensures kept { OnErr result (names.new ≡ names.old) }
{
    if !name::is_printed(&name) {
        return Err(Refusal::NameByte.at(place, Layer::Sheet));
    }
    if is_among(names, &name) {
        return Err(Refusal::NameRepeated.at(place, Layer::Sheet));
    }
    names
        .try_push(name)
        .map_err(|_| Refusal::TooMany.at(place, Layer::Sheet))
}

impl Sheet {
    /// A sheet has at most this many bytes.
    pub const MOST_BYTES: usize = 60000;

    /// The empty sheet: no classes, roles or axioms.
    pub fn new() -> Sheet
        ensures { held result ≡ nothing }
    {
        Sheet {
            classes: ArrayVec::new(),
            roles: ArrayVec::new(),
            axioms: ArrayVec::new(),
        }
    }

    /// Takes in an axiom that stands at `place`.
    fn state(&mut self, axiom: Axiom, place: usize) -> Result<(), Fault>
        ensures { Answers (entry_checks (held self.old) (an_axiom «axiom»)) place in_sheet
            (λ _. held self.new ≡ more (held self.old) (an_axiom «axiom»)) (told result) }
    {
        axiom.check(self.class_count(), self.role_count(), place, Layer::Sheet)?;
        self.axioms
            .try_push(Statement::of(axiom))
            .map_err(|_| Refusal::TooMany.at(place, Layer::Sheet))
    }

    /// Takes in an item that stands at `place`.
    fn add(&mut self, item: Item, place: usize) -> Result<(), Fault>
        ensures { Answers (entry_checks (held self.old) (entry_of item)) place in_sheet
            (λ _. held self.new ≡ more (held self.old) (entry_of item)) (told result) }
    {
        match item {
            Item::Class(name) => declare(&mut self.classes, name, place),
            Item::Role(name) => declare(&mut self.roles, name, place),
            Item::Axiom(axiom) => self.state(axiom, place),
        }
    }

    /// The sheet that the text is.
    fn parse(text: &[u8]) -> Result<Sheet, Fault>
        ensures { MatchResult result (λ s. Gives text.now (done (held s))) (λ f. Gives text.now (told (Err f))) }
    {
        if text.len() > Self::MOST_BYTES {
            return Err(Refusal::SheetTooLong.at(0, Layer::Sheet));
        }
        let mut sheet = Sheet::new();
        for field in Reader::new(text) {
            let field = field?;
            sheet.add(field.item()?, field.place)?;
        }
        Ok(sheet)
    }

    /// Fills the sheet with what the text says, or refuses it and leaves the sheet as it was.
    pub fn open(&mut self, text: &[u8]) -> Result<(), Fault>
        ensures gives { Gives text.now (outcome (told result) (held self.new)) }
        ensures only { (o : Told Contents) → Gives text.now o → o ≡ outcome (told result) (held self.new) }
        ensures kept { OnErr result (self.new ≡ self.old) }
    {
        *self = Sheet::parse(text)?;
        Ok(())
    }
}
