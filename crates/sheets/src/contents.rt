//! What a sheet holds.
ghost use Rattle.sources.specs.Meanings.{Limits};
ghost use Rattle.sources.specs.Limiting.{limits_prop};
ghost use Rattle.sheets.specs.Sheets.{meaning_of};
ghost use Rattle.sheets.specs.Lists.{contents_of};

use crate::name::Name;
use crate::statement::Statement;
use arrayvec::ArrayVec;

/// A sheet of axioms, which lives wholly in its own value: at most 64 classes and 16 roles by name, and 1,024 axioms.
#[derive(Drop)]
pub struct Sheet {
    pub(crate) classes: ArrayVec<Name, 64>,
    pub(crate) roles: ArrayVec<Name, 16>,
    pub(crate) axioms: ArrayVec<Statement, 1024>,
    ghost limits: { Limits (meaning_of (contents_of classes.items roles.items axioms.items)) } by { limits_prop _ },
}
