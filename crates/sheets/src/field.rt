//! The fields of a sheet: a tag, a length of two bytes with the high one first, and that many bytes.
ghost use Rattle.std.specs.Prelude.{◌≡◌, ◌+◌, ◌≤◌, ◌++◌, length, MatchResult};
ghost use Rattle.terms.specs.declared.refusals.Refusal.TheVariants.{CutShort};
ghost use Rattle.std.specs.Iterator.{at_most};
ghost use Rattle.sheets.specs.Sheets.{field_of, in_sheet, Short};
ghost use Rattle.sheets.specs.Fields.{Reads};

use terms::{Fault, Layer, Refusal};

/// A field, and the place of its first byte.
#[derive(Clone, Copy)]
pub struct Field<'a> {
    pub place: usize,
    pub tag: u8,
    pub body: &'a [u8],
}

/// What is left of a sheet to read, and the place where it begins.
#[derive(Drop)]
pub struct Reader<'a> {
    pub rest: &'a [u8],
    pub place: usize,
    ghost ok: { place + length rest.now ≤ 60000 },
}

impl<'a> Reader<'a> {
    /// Starts at the front of a text that is no longer than a sheet may be.
    pub fn new(text: &'a [u8]) -> Self
        requires { length text.now ≤ 60000 }
        ensures rest { result.rest.now ≡ text.now }
        ensures place { result.place ≡ 0 }
    {
        Reader {
            rest: text,
            place: 0,
        }
    }

    /// Takes the field at the front, or refuses what is no whole field.
    fn field(&mut self) -> Result<Field<'a>, Fault>
        ensures { MatchResult result
            (λ f. (self.old.rest.now ≡ field_of f.tag f.body.now ++ self.new.rest.now)
            × (f.place ≡ self.old.place)
            × (self.new.place ≡ self.old.place + length (field_of f.tag f.body.now)))
            (λ e. (e ≡ record { kind = CutShort; place = self.old.place; layer = in_sheet })
            × Short self.old.rest.now) }
    {
        let place = self.place;
        let [tag, high, low, after @ ..] = self.rest else {
            return Err(Refusal::CutShort.at(place, Layer::Sheet));
        };
        let len = usize::from(u16::from_be_bytes([*high, *low]));
        if after.len() < len {
            return Err(Refusal::CutShort.at(place, Layer::Sheet));
        }
        let (body, rest) = after.split_at(len);
        self.rest = rest;
        self.place = place + 3 + len;
        Ok(Field {
            place,
            tag: *tag,
            body,
        })
    }
}

/// The fields from the front on; the refusal of what is no whole field is the last item.
impl<'a> Iterator for Reader<'a> {
    type Item = Result<Field<'a>, Fault>;

    ghost remaining = { λ r. at_most (length r.rest.now) };

    ghost next_gives = { λ r item s. Reads r.rest.now r.place item s.rest.now s.place };

    fn next(&mut self) -> Option<Result<Field<'a>, Fault>> {
        if self.rest.is_empty() {
            return None;
        }
        let field = self.field();
        if field.is_err() {
            self.rest = &[];
        }
        Some(field)
    }
}
