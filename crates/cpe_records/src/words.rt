// The words of members.
ghost use Rattle.std.specs.Prelude.{◌≡◌};
ghost use Rattle.cpe_rows.specs.cpe_name.Text.{attribute_name};
ghost use Rattle.cpe_records.specs.Words.{kind_word, kind_of, note_kind_word, note_kind_of, mode_word, mode_of, operator_word, operator_of, truth_word, truth_of_word};

use cpe_rows::{Attribute, Kind, Mode, NoteKind, Operator, Truth};

/// The word for an attribute (NIST IR 7695, 5).
pub fn attribute_word(which: Attribute) -> &'static str
    ensures { result.now ≡ attribute_name which }
{
    match which {
        Attribute::Part => "part",
        Attribute::Vendor => "vendor",
        Attribute::Product => "product",
        Attribute::Version => "version",
        Attribute::Update => "update",
        Attribute::Edition => "edition",
        Attribute::Language => "language",
        Attribute::SwEdition => "sw_edition",
        Attribute::TargetSw => "target_sw",
        Attribute::TargetHw => "target_hw",
        Attribute::Other => "other",
    }
}

/// The word for the kind of a deprecation.
pub fn kind_word(kind: Kind) -> &'static str
    ensures { result.now ≡ kind_word kind }
{
    match kind {
        Kind::NameCorrection => "NAME_CORRECTION",
        Kind::NameRemoval => "NAME_REMOVAL",
        Kind::AdditionalInformation => "ADDITIONAL_INFORMATION",
    }
}

/// The kind of a deprecation that has this word, if there is one.
pub(crate) fn kind_of(text: &str) -> Option<Kind>
    ensures { result ≡ kind_of text.now }
{
    [
        Kind::NameCorrection,
        Kind::NameRemoval,
        Kind::AdditionalInformation,
    ]
    .iter()
    .copied()
    .find(|kind| kind_word(*kind) == text)
}

/// The word for the kind of a note.
pub fn note_kind_word(kind: NoteKind) -> &'static str
    ensures { result.now ≡ note_kind_word kind }
{
    match kind {
        NoteKind::OriginalRecord => "ORIGINAL_RECORD",
        NoteKind::AuthorityChange => "AUTHORITY_CHANGE",
        NoteKind::Deprecation => "DEPRECATION",
        NoteKind::DeprecationModification => "DEPRECATION_MODIFICATION",
    }
}

/// The kind of a note that has this word, if there is one.
pub(crate) fn note_kind_of(text: &str) -> Option<NoteKind>
    ensures { result ≡ note_kind_of text.now }
{
    [
        NoteKind::OriginalRecord,
        NoteKind::AuthorityChange,
        NoteKind::Deprecation,
        NoteKind::DeprecationModification,
    ]
    .iter()
    .copied()
    .find(|kind| note_kind_word(*kind) == text)
}

/// The word for a mode.
pub fn mode_word(mode: Mode) -> &'static str
    ensures { result.now ≡ mode_word mode }
{
    match mode {
        Mode::Plain => "plain",
        Mode::Follow => "follow",
    }
}

/// The mode that has this word, if there is one.
pub(crate) fn mode_of(text: &str) -> Option<Mode>
    ensures { result ≡ mode_of text.now }
{
    [Mode::Plain, Mode::Follow]
        .iter()
        .copied()
        .find(|mode| mode_word(*mode) == text)
}

/// The word for an operator.
pub fn operator_word(operator: Operator) -> &'static str
    ensures { result.now ≡ operator_word operator }
{
    match operator {
        Operator::And => "AND",
        Operator::Or => "OR",
    }
}

/// The operator that has this word, if there is one.
pub(crate) fn operator_of(text: &str) -> Option<Operator>
    ensures { result ≡ operator_of text.now }
{
    [Operator::And, Operator::Or]
        .iter()
        .copied()
        .find(|operator| operator_word(*operator) == text)
}

/// The word for a truth.
pub fn truth_word(truth: Truth) -> &'static str
    ensures { result.now ≡ truth_word truth }
{
    match truth {
        Truth::True => "TRUE",
        Truth::False => "FALSE",
        Truth::Error => "ERROR",
        Truth::Unknown => "UNKNOWN",
    }
}

/// The truth that has this word, if there is one.
pub fn truth_of(text: &str) -> Option<Truth>
    ensures { result ≡ truth_of_word text.now }
{
    [Truth::True, Truth::False, Truth::Error, Truth::Unknown]
        .iter()
        .copied()
        .find(|truth| truth_word(*truth) == text)
}
