// Finds the components of a formatted string (NIST IR 7695, 6.2). Nothing here allocates.
//
// Each function reads the beginning of the bytes, and returns the bytes after it. If the bytes don't fit, the error is
// the number of bytes from the first wrong byte on.
ghost use Rattle.std.specs.Prelude.{◌≡◌, ◌==◌, ◌≤◌, ◌-◌, ◌+◌, ◌∷◌, [], true, take, length, Ok, Err, IfOk, IfErr};
ghost use Rattle.name_grammar.specs.Place.{StopsAt};
ghost use Rattle.name_grammar.specs.Scanners.{Scanner, IsScan, scan_one};
ghost use Rattle.cpe_name.specs.Prelude.{attributes, texts};
ghost use Rattle.cpe_fs.specs.Grammar.{IsFs};
ghost use Rattle.cpe_fs.specs.Scanning.{is_hyphen_byte, led_end, text_end, part_end, language_end, field_end, fs_fields_end, any_fs_tail};
ghost use Rattle.cpe_fs.specs.Spans.{AreFsComponents, behind_field, component_at, components_at, any_components};

use cpe_name::{Hyphen, Written, scan_language_tag};
use cpe_values::{Style, scan_edge, scan_stem, starts_body};
use name_grammar::{prefix_of, scan_byte, scan_literal};

// Reads what follows an asterisk at the beginning of a component: nothing, or a body with its trail.
#[tactic(auto, unfolding(crate::specs::Scanning::led_end))]
fn scan_led(bytes: &[u8]) -> Result<&[u8], usize>
    ensures { IsScan (λ rest. rest.now) result (led_end bytes.now) }
{
    match bytes {
        [byte, ..] if starts_body(Style::Formatted, *byte) => scan_stem(Style::Formatted, bytes),
        _ => Ok(bytes),
    }
}

#[tactic(auto, unfolding(crate::specs::Scanning::text_end))]
pub(crate) fn scan_text(bytes: &[u8]) -> Result<&[u8], usize>
    ensures { IsScan (λ rest. rest.now) result (text_end bytes.now) }
{
    match bytes {
        [b'*', rest @ ..] => scan_led(rest),
        _ => {
            let rest = scan_edge(bytes)?;
            scan_stem(Style::Formatted, rest)
        }
    }
}

// The hyphen of a language tag in a formatted string, which is always bare.
struct BareHyphen;

impl Hyphen for BareHyphen {
    ghost begins = { is_hyphen_byte };

    ghost end = { scan_one is_hyphen_byte };

    #[inline(always)]
    fn begins_with(byte: u8) -> bool {
        byte == b'-'
    }

    #[inline(always)]
    fn scan(bytes: &[u8]) -> Result<&[u8], usize> {
        scan_byte(b'-', bytes)
    }
}

// A kind of component, with its scanner.
trait Component {
    ghost end: { Scanner };

    fn scan(bytes: &[u8]) -> Result<&[u8], usize>
        ensures { IsScan (λ rest. rest.now) result (end bytes.now) };
}

struct Part;

impl Component for Part {
    ghost end = { part_end };

    #[inline(always)]
    #[tactic(auto, unfolding(crate::specs::Scanning::part_end))]
    fn scan(bytes: &[u8]) -> Result<&[u8], usize> {
        match bytes {
            [b'*' | b'-' | b'a' | b'h' | b'o', rest @ ..] => Ok(rest),
            _ => Err(bytes.len()),
        }
    }
}

struct Text;

impl Component for Text {
    ghost end = { text_end };

    #[inline(always)]
    fn scan(bytes: &[u8]) -> Result<&[u8], usize> {
        scan_text(bytes)
    }
}

struct Language;

impl Component for Language {
    ghost end = { language_end };

    #[tactic(auto, unfolding(crate::specs::Scanning::language_end))]
    fn scan(bytes: &[u8]) -> Result<&[u8], usize> {
        match bytes {
            [b'*' | b'-', rest @ ..] => Ok(rest),
            _ => scan_language_tag::<BareHyphen>(bytes),
        }
    }
}

// Reads a colon and a component. Returns the component, and the bytes after it.
#[tactic(auto, unfolding(crate::specs::Scanning::field_end, crate::specs::Spans::behind_field, crate::specs::Spans::component_at))]
fn scan_field<C: Component>(bytes: &[u8]) -> Result<(&[u8], &[u8]), usize>
    ensures scans { IsScan (λ x. x.1.now) result (field_end C.end bytes.now) }
    ensures component { IfOk result (λ x. x.0.now ≡ component_at C.end bytes.now) }
    ensures rest { IfOk result (λ x. x.1.now ≡ behind_field C.end bytes.now) }
{
    let start = scan_byte(b':', bytes)?;
    let rest = C::scan(start)?;
    Ok((prefix_of(start, rest), rest))
}

// Whether the rest is seven times ANY, as it is after the version of most names.
#[inline(always)]
fn is_any_tail(bytes: &[u8]) -> bool
    ensures { result ≡ true → bytes.now ≡ any_fs_tail }
{
    bytes.len() == 14 && bytes == b":*:*:*:*:*:*:*".as_slice()
}

#[inline(always)]
fn with_any_tail<'a>(
    part: &'a [u8],
    vendor: &'a [u8],
    product: &'a [u8],
    version: &'a [u8],
) -> Written<'a>
    ensures { texts result ≡ part.now ∷ vendor.now ∷ product.now ∷ version.now ∷ any_components }
{
    Written {
        part,
        vendor,
        product,
        version,
        update: b"*",
        edition: b"*",
        language: b"*",
        sw_edition: b"*",
        target_sw: b"*",
        target_hw: b"*",
        other: b"*",
    }
}

fn scan_fields(bytes: &[u8]) -> Result<(Written, &[u8]), usize>
    ensures scans { IsScan (λ x. x.1.now) result (fs_fields_end attributes bytes.now) }
    ensures texts { IfOk result (λ x. texts x.0 ≡ components_at attributes bytes.now) }
{
    let (part, rest) = scan_field::<Part>(bytes)?;
    let (vendor, rest) = scan_field::<Text>(rest)?;
    let (product, rest) = scan_field::<Text>(rest)?;
    let (version, rest) = scan_field::<Text>(rest)?;
    if is_any_tail(rest) {
        return Ok((with_any_tail(part, vendor, product, version), &[]));
    }
    let (update, rest) = scan_field::<Text>(rest)?;
    let (edition, rest) = scan_field::<Text>(rest)?;
    let (language, rest) = scan_field::<Language>(rest)?;
    let (sw_edition, rest) = scan_field::<Text>(rest)?;
    let (target_sw, rest) = scan_field::<Text>(rest)?;
    let (target_hw, rest) = scan_field::<Text>(rest)?;
    let (other, rest) = scan_field::<Text>(rest)?;
    let components = Written {
        part,
        vendor,
        product,
        version,
        update,
        edition,
        language,
        sw_edition,
        target_sw,
        target_hw,
        other,
    };
    Ok((components, rest))
}

// The components of a formatted string. If the text is none, the error is the number of bytes from the first wrong byte
// on.
#[tactic(auto, using(crate::proofs::Whole::start_leaves, crate::proofs::Whole::fields_leave))]
pub(crate) fn scan_fs(text: &[u8]) -> Result<Written, usize>
    ensures found { IfOk result (AreFsComponents text.now) }
    ensures refused { IfErr result (StopsAt IsFs text.now) }
{
    let (components, behind) = scan_fields(scan_literal(b"cpe:2.3", text)?)?;
    if !behind.is_empty() {
        return Err(behind.len());
    }
    Ok(components)
}
