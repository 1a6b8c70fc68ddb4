//! What one field says.
ghost use Rattle.std.specs.Prelude.{◌≡◌, length, MatchOption};
ghost use Rattle.terms.specs.Refusals.{Answers, told};
ghost use Rattle.sheets.specs.Sheets.{in_sheet, field_checks, RightLength, Says, bytes_of};
ghost use Rattle.sheets.specs.Tags.{tag_number};
ghost use Rattle.sheets.specs.Held.{entry_of};

use crate::field::Field;
use crate::name;
use crate::name::Name;
use crate::tag::Tag;
use terms::{Axiom, ClassSet, Fault, Layer, Refusal};

/// An item of a sheet: the name of the next class, that of the next role, or an axiom.
#[derive(Drop)]
pub enum Item {
    Class(Name),
    Role(Name),
    Axiom(Axiom),
}

/// The set whose mask stands in eight bytes, high byte first.
fn mask(bytes: &[u8]) -> ClassSet
    requires { length bytes.now ≡ 8 }
    ensures { bytes.now ≡ bytes_of 8 result.bits }
{
    let all = <[u8; 8]>::try_from(bytes).unwrap();
    ClassSet::from_bits(u64::from_be_bytes(all))
}

impl Item {
    /// What a body says under a tag, where it has a length that the tag allows.
    fn new(tag: Tag, body: &[u8]) -> Option<Self>
        ensures { MatchOption result
            (RightLength (tag_number tag) (length body.now) → ⊥)
            (λ i. RightLength (tag_number tag) (length body.now) × Says (tag_number tag) body.now (entry_of i)) }
    {
        match tag {
            Tag::Class => name::read(body).map(Item::Class),
            Tag::Role => name::read(body).map(Item::Role),
            Tag::Inclusion if body.len() == 16 => {
                let (lower, upper) = body.split_at(8);
                Some(Item::Axiom(Axiom::Inclusion {
                    lower: mask(lower),
                    upper: mask(upper),
                }))
            }
            Tag::Exists if let [lower, role, filler] = body => Some(Item::Axiom(Axiom::Exists {
                lower: *lower,
                role: *role,
                filler: *filler,
            })),
            Tag::ExistsLower if let [role, filler, upper] = body => Some(Item::Axiom(
                Axiom::ExistsLower {
                    role: *role,
                    filler: *filler,
                    upper: *upper,
                },
            )),
            Tag::Forall if let [lower, role, filler] = body => Some(Item::Axiom(Axiom::Forall {
                lower: *lower,
                role: *role,
                filler: *filler,
            })),
            Tag::RoleInclusion if let [sub, sup] = body => Some(Item::Axiom(
                Axiom::RoleInclusion {
                    sub: *sub,
                    sup: *sup,
                },
            )),
            _ => None,
        }
    }
}

impl<'a> Field<'a> {
    /// What the field says, or the first check that fails of its tag and its length.
    pub fn item(&self) -> Result<Item, Fault>
        ensures { Answers (field_checks self.now.tag self.now.body.now) self.now.place in_sheet (λ i. Says self.now.tag self.now.body.now (entry_of i)) (told result) }
    {
        let unknown = Refusal::UnknownTag.at(self.place, Layer::Sheet);
        let tag = Tag::try_from(self.tag).map_err(|_| unknown)?;
        Item::new(tag, self.body).ok_or(Refusal::WrongLength.at(self.place, Layer::Sheet))
    }
}
