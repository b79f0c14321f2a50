// Reads URIs, and texts in either binding, as names that borrow the bytes of their texts (NIST IR 7695, 6.1.3). Nothing
// here allocates. If the spelling of a text differs from the text, the name can't borrow it. `unbind_uri` and
// `unbind_any` make such names.
ghost use Rattle.std.specs.Prelude.{◌≡◌, map, true, Ok, Err, IfOk, IfErr, OnOk, IfSome, MatchResult};
ghost use Rattle.std.specs.List.{AllByRecursion};
ghost use Rattle.cpe_values.specs.declared.value.Edge.TheVariants as edge;
ghost use Rattle.cpe_values.specs.Parts.{parts};
ghost use Rattle.cpe_values.specs.Borrowed.{text_lent, value_lent};
ghost use Rattle.cpe_name.specs.Prelude.{name_lent, named, texts};
ghost use Rattle.cpe_uri.specs.EitherBinding.{UriOrFs, IsUriOrFs, LeavesUriOrFs, read_any};
ghost use Rattle.cpe_uri.specs.Grammar.{Uri, IsUri, LeavesUri};
ghost use Rattle.cpe_uri.specs.Lending.{spells_itself, spell_themselves, all_spell_themselves};
ghost use Rattle.cpe_uri.specs.SpanValues.{uri_value_at};
ghost use Rattle.cpe_uri.specs.Unbound.{read_uri};

use crate::scan::scan_uri;
use crate::unbind::begins_as_uri;
use crate::values::is_hyphen;
use cpe_fs::lend_fs;
use cpe_name::{NameRef, Written};
use cpe_values::{Edge, TextRef, ValueRef};

// 1 for a byte that spells itself: a small letter, a digit, `_`, `.`, `-` or `~`. It is a table, because no processor
// could predict a branch on these bytes.
#[rattlefmt::skip]
const ITSELF: [u8; 256] = [
    0, 0, 0, 0, 0, 0, 0, 0, 0, 0, 0, 0, 0, 0, 0, 0, 0, 0, 0, 0, 0, 0, 0, 0, 0, 0, 0, 0, 0, 0, 0, 0,
    0, 0, 0, 0, 0, 0, 0, 0, 0, 0, 0, 0, 0, 1, 1, 0, 1, 1, 1, 1, 1, 1, 1, 1, 1, 1, 0, 0, 0, 0, 0, 0,
    0, 0, 0, 0, 0, 0, 0, 0, 0, 0, 0, 0, 0, 0, 0, 0, 0, 0, 0, 0, 0, 0, 0, 0, 0, 0, 0, 0, 0, 0, 0, 1,
    0, 1, 1, 1, 1, 1, 1, 1, 1, 1, 1, 1, 1, 1, 1, 1, 1, 1, 1, 1, 1, 1, 1, 1, 1, 1, 1, 0, 0, 0, 1, 0,
    0, 0, 0, 0, 0, 0, 0, 0, 0, 0, 0, 0, 0, 0, 0, 0, 0, 0, 0, 0, 0, 0, 0, 0, 0, 0, 0, 0, 0, 0, 0, 0,
    0, 0, 0, 0, 0, 0, 0, 0, 0, 0, 0, 0, 0, 0, 0, 0, 0, 0, 0, 0, 0, 0, 0, 0, 0, 0, 0, 0, 0, 0, 0, 0,
    0, 0, 0, 0, 0, 0, 0, 0, 0, 0, 0, 0, 0, 0, 0, 0, 0, 0, 0, 0, 0, 0, 0, 0, 0, 0, 0, 0, 0, 0, 0, 0,
    0, 0, 0, 0, 0, 0, 0, 0, 0, 0, 0, 0, 0, 0, 0, 0, 0, 0, 0, 0, 0, 0, 0, 0, 0, 0, 0, 0, 0, 0, 0, 0,
];

#[tactic(auto, using(crate::proofs::Tables::itself_is))]
fn spells_itself(byte: u8) -> bool
    ensures { result ≡ spells_itself byte }
{
    ITSELF[usize::from(byte)] == 1
}

// Whether the piece has no percent form and no capital letter. Then the body that it spells has the same bytes.
fn spell_themselves(span: &[u8]) -> bool
    ensures { result ≡ spell_themselves span.now }
{
    span.iter().all(|byte| spells_itself(*byte))
}

fn all_spell_themselves(spans: &Written) -> bool
    ensures { result ≡ all_spell_themselves (texts spans.now) }
{
    spell_themselves(spans.part)
        && spell_themselves(spans.vendor)
        && spell_themselves(spans.product)
        && spell_themselves(spans.version)
        && spell_themselves(spans.update)
        && spell_themselves(spans.edition)
        && spell_themselves(spans.language)
        && spell_themselves(spans.sw_edition)
        && spell_themselves(spans.target_sw)
        && spell_themselves(spans.target_hw)
        && spell_themselves(spans.other)
}

fn text_alone(body: &[u8]) -> TextRef
    ensures { text_lent result ≡ parts edge.None body.now edge.None }
{
    TextRef {
        lead: Edge::None,
        stem: body,
        trail: Edge::None,
    }
}

fn lend_value(span: &[u8]) -> ValueRef
    requires { spell_themselves span.now ≡ true }
    ensures { value_lent result ≡ uri_value_at span.now }
{
    if span.is_empty() {
        ValueRef::Any
    } else if is_hyphen(span) {
        ValueRef::Na
    } else {
        ValueRef::Text(text_alone(span))
    }
}

fn lend_values<'a>(spans: &Written<'a>) -> NameRef<'a>
    requires { AllByRecursion (λ u. spell_themselves u ≡ true) (texts spans.now) }
    ensures { name_lent result ≡ named (map uri_value_at (texts spans.now)) }
{
    NameRef {
        part: lend_value(spans.part),
        vendor: lend_value(spans.vendor),
        product: lend_value(spans.product),
        version: lend_value(spans.version),
        update: lend_value(spans.update),
        edition: lend_value(spans.edition),
        language: lend_value(spans.language),
        sw_edition: lend_value(spans.sw_edition),
        target_sw: lend_value(spans.target_sw),
        target_hw: lend_value(spans.target_hw),
        other: lend_value(spans.other),
    }
}

#[tactic(auto, using(crate::proofs::Lent::each_themselves))]
fn lend_pieces<'a>(spans: &Written<'a>) -> Option<NameRef<'a>>
    ensures { IfSome result (λ name. name_lent name ≡ named (map uri_value_at (texts spans.now))) }
{
    if !all_spell_themselves(spans) {
        return None;
    }
    Some(lend_values(spans))
}

// The name that has this URI, borrowed from its bytes (NIST IR 7695, 6.1.3). `None` if a value is spelled with a
// percent form or a capital letter.
fn lend_uri(text: &[u8]) -> Result<Option<NameRef<'_>>, usize>
    // A lent name has this text.
    ensures lent { IfOk result (λ lent. IfSome lent (λ name. Uri (name_lent name) text.now)) }
    // If there is no error, some name has this text.
    ensures had { OnOk result (IsUri text.now) }
    // An error is the place of the text, which no name has.
    ensures refused { IfErr result (LeavesUri text.now) }

    // The result equals that of the function `read_uri`, if a name is lent or there is an error.
    ensures read { MatchResult result (λ lent. IfSome lent (λ name. read_uri text.now ≡ Ok (name_lent name))) (λ place. read_uri text.now ≡ Err place) }
{
    match scan_uri(text) {
        Ok(spans) => Ok(lend_pieces(&spans)),
        Err(left) => Err(text.len() - left),
    }
}

/// The name that has this text in one of the two bindings, borrowed from its bytes (NIST IR 7695, 6.1.3 and 6.2.3). A
/// text that begins with `cpe:/`, in any letter case, is read as a URI. Any other text is read as by [`lend_fs`].
/// `None` if the name can't be borrowed, as a value is spelled with a percent form or a capital letter;
/// [`unbind_any`](crate::unbind_any) makes such a name. Allocates: no.
///
/// # Errors
///
/// The place of the text as in [`UriFault::At`](crate::UriFault::At), exactly if no name has it.
pub fn lend_any(text: &[u8]) -> Result<Option<NameRef<'_>>, usize>
    // A lent name has this text.
    ensures lent { IfOk result (λ lent. IfSome lent (λ name. UriOrFs (name_lent name) text.now)) }
    // If there is no error, some name has this text.
    ensures had { OnOk result (IsUriOrFs text.now) }
    // An error is the place of the text, which no name has.
    ensures refused { IfErr result (LeavesUriOrFs text.now) }

    // The result equals that of the function `read_any`, if a name is lent or there is an error.
    ensures read { MatchResult result (λ lent. IfSome lent (λ name. read_any text.now ≡ Ok (name_lent name))) (λ place. read_any text.now ≡ Err place) }
{
    if begins_as_uri(text) {
        lend_uri(text)
    } else {
        lend_fs(text)
    }
}
