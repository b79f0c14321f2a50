// Eleven fields of one type, one for each attribute of a name.
ghost use Rattle.std.specs.Prelude.{◌≡◌};
ghost use Rattle.cpe_name.specs.Eleven.{at, put};

use crate::Attribute;
use std::alloc::AllocError;

/// A field for each [`Attribute`]: the values of a name, the texts of these values, or the relations between the values
/// of two names.
#[derive(Debug, Drop, PartialEq, Eq, Hash)]
pub struct Eleven<T> {
    pub part: T,
    pub vendor: T,
    pub product: T,
    pub version: T,
    pub update: T,
    pub edition: T,
    pub language: T,
    pub sw_edition: T,
    pub target_sw: T,
    pub target_hw: T,
    pub other: T,
}

impl<T: Copy> Clone for Eleven<T> {
    fn clone(&self) -> Result<Eleven<T>, AllocError> {
        Ok(*self)
    }
}

impl<T: Copy> Copy for Eleven<T> {}

impl<T> Eleven<T> {
    /// The field of an attribute.
    #[inline(always)]
    pub fn get(&self, which: Attribute) -> &T
        ensures { result.now ≡ at self.now which }
    {
        match which {
            Attribute::Part => &self.part,
            Attribute::Vendor => &self.vendor,
            Attribute::Product => &self.product,
            Attribute::Version => &self.version,
            Attribute::Update => &self.update,
            Attribute::Edition => &self.edition,
            Attribute::Language => &self.language,
            Attribute::SwEdition => &self.sw_edition,
            Attribute::TargetSw => &self.target_sw,
            Attribute::TargetHw => &self.target_hw,
            Attribute::Other => &self.other,
        }
    }
}

impl<T: Drop> Eleven<T> {
    /// Replaces the field of an attribute.
    #[inline(always)]
    pub fn set(&mut self, which: Attribute, new: T)
        ensures { self.new ≡ put self.old which new }
    {
        match which {
            Attribute::Part => self.part = new,
            Attribute::Vendor => self.vendor = new,
            Attribute::Product => self.product = new,
            Attribute::Version => self.version = new,
            Attribute::Update => self.update = new,
            Attribute::Edition => self.edition = new,
            Attribute::Language => self.language = new,
            Attribute::SwEdition => self.sw_edition = new,
            Attribute::TargetSw => self.target_sw = new,
            Attribute::TargetHw => self.target_hw = new,
            Attribute::Other => self.other = new,
        }
    }
}
