// The attributes of a name.
ghost use Rattle.std.specs.Prelude.{◌≡◌};
ghost use Rattle.cpe_name.specs.Text.{attribute_name};

/// An attribute of a name (NIST IR 7695, 5). The attributes are in the order of the formatted string.
#[derive(Clone, Copy, Debug, PartialEq, Eq, Hash)]
pub enum Attribute {
    /// The kind of the named thing: an application, hardware or an operating system.
    Part,
    /// Who made or sells the product.
    Vendor,
    /// The product's title or name.
    Product,
    /// The vendor's version of the product.
    Version,
    /// The vendor's update or service pack of that version.
    Update,
    /// The edition, a field of CPE 2.2 that names may still have.
    Edition,
    /// The language of the user interface.
    Language,
    /// The market or class of users for which the product is made.
    SwEdition,
    /// The software environment in which the product runs.
    TargetSw,
    /// The instruction set or hardware on which the product runs.
    TargetHw,
    /// Any other note of the vendor.
    Other,
}

/// The attributes in the order of the formatted string.
pub const ATTRIBUTES: [Attribute; 11] = [
    Attribute::Part,
    Attribute::Vendor,
    Attribute::Product,
    Attribute::Version,
    Attribute::Update,
    Attribute::Edition,
    Attribute::Language,
    Attribute::SwEdition,
    Attribute::TargetSw,
    Attribute::TargetHw,
    Attribute::Other,
];

// The name of an attribute in the text of a well-formed name.
pub(crate) fn text_of(which: Attribute) -> &'static [u8]
    ensures { result.now ≡ attribute_name which }
{
    match which {
        Attribute::Part => b"part",
        Attribute::Vendor => b"vendor",
        Attribute::Product => b"product",
        Attribute::Version => b"version",
        Attribute::Update => b"update",
        Attribute::Edition => b"edition",
        Attribute::Language => b"language",
        Attribute::SwEdition => b"sw_edition",
        Attribute::TargetSw => b"target_sw",
        Attribute::TargetHw => b"target_hw",
        Attribute::Other => b"other",
    }
}
