//! The tags of fields.
ghost use Rattle.sheets.specs.Tags.{Decodes};

/// What a field speaks of, by its tag.
#[derive(Clone, Copy, PartialEq, Eq, Debug)]
pub enum Tag {
    Class,
    Role,
    Inclusion,
    Exists,
    ExistsLower,
    Forall,
    RoleInclusion,
}

/// A byte that is no tag.
#[derive(Clone, Copy, PartialEq, Eq, Debug)]
pub struct UnknownTag;

impl TryFrom<u8> for Tag {
    type Error = UnknownTag;

    ghost try_from_gives = { Decodes };

    fn try_from(byte: u8) -> Result<Self, UnknownTag> {
        match byte {
            1 => Ok(Tag::Class),
            2 => Ok(Tag::Role),
            3 => Ok(Tag::Inclusion),
            4 => Ok(Tag::Exists),
            5 => Ok(Tag::ExistsLower),
            6 => Ok(Tag::Forall),
            7 => Ok(Tag::RoleInclusion),
            _ => Err(UnknownTag),
        }
    }
}
