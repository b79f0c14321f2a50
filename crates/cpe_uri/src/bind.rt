// Writes the canonical URIs of names (NIST IR 7695, 6.1.2).
ghost use Rattle.std.specs.Prelude.{◌≡◌, ◌++◌, ◌∷◌, IfOk, OnOk, replicate, codes};
ghost use Rattle.std.specs.List.{flat_map, list_all, join_with_byte};
ghost use Rattle.cpe_name.specs.Names.{value_of};
ghost use Rattle.cpe_uri.specs.Spelling.{edge_codes, uri_character, uri_component};
ghost use Rattle.cpe_uri.specs.Canon.{is_any_component, extended, edition_component, components, trimmed, canon};

use crate::spelling::percent_form;
use crate::trim::without_colons;
use cpe_name::{Attribute, Wfn};
use cpe_values::{Edge, Memory, Style, Value, is_bare_byte};
use std::alloc::Global;

// The attributes that have a component of their own, between those of the part and of the edition.
const MIDDLE: [Attribute; 4] = [
    Attribute::Vendor,
    Attribute::Product,
    Attribute::Version,
    Attribute::Update,
];

// The attributes that names of CPE 2.2 don't have. They are packed into the component of the edition.
const EXTENDED: [Attribute; 4] = [
    Attribute::SwEdition,
    Attribute::TargetSw,
    Attribute::TargetHw,
    Attribute::Other,
];

fn push_character(out: &mut Vec<u8>, code: u8) -> Result<(), Memory>
    ensures { OnOk result (out.new.items ≡ out.old.items ++ uri_character code) }
{
    if is_bare_byte(Style::Formatted, code) {
        out.push(code)?;
        return Ok(());
    }
    out.extend_from_slice(&percent_form(code))?;
    Ok(())
}

fn push_body(out: &mut Vec<u8>, body: &[u8]) -> Result<(), Memory>
    ensures { OnOk result (out.new.items ≡ out.old.items ++ flat_map uri_character body.now) }
{
    for byte in body {
        push_character(out, *byte)?;
    }
    Ok(())
}

fn push_marks(out: &mut Vec<u8>, marks: u32) -> Result<(), Memory>
    ensures { OnOk result (out.new.items ≡ out.old.items ++ flat_map uri_character (replicate marks 1)) }
{
    for _ in 0..marks {
        push_character(out, 1)?;
    }
    Ok(())
}

fn push_edge(out: &mut Vec<u8>, edge: Edge) -> Result<(), Memory>
    ensures { OnOk result (out.new.items ≡ out.old.items ++ flat_map uri_character (edge_codes edge)) }
{
    match edge {
        Edge::None => Ok(()),
        Edge::Star => push_character(out, 2),
        Edge::Marks(marks) => push_marks(out, marks),
    }
}

fn push_component(out: &mut Vec<u8>, value: &Value) -> Result<(), Memory>
    ensures { OnOk result (out.new.items ≡ out.old.items ++ uri_component value.now) }
{
    match value {
        Value::Any => Ok(()),
        Value::Na => {
            out.push(b'-')?;
            Ok(())
        }
        Value::Text(text) => {
            push_edge(out, text.lead())?;
            push_body(out, text.stem())?;
            push_edge(out, text.trail())
        }
    }
}

fn push_each(out: &mut Vec<u8>, before: u8, name: &Wfn, which: &[Attribute]) -> Result<(), Memory>
    ensures { OnOk result (out.new.items ≡ out.old.items ++ flat_map (λ a. before ∷ uri_component (value_of name.now a)) which.now) }
{
    for attribute in which {
        out.push(before)?;
        push_component(out, name.get(*attribute))?;
    }
    Ok(())
}

fn is_any_value(value: &Value) -> bool
    ensures { result ≡ is_any_component value.now }
{
    matches!(value, Value::Any)
}

fn is_edition_alone(name: &Wfn) -> bool
    ensures { result ≡ list_all (λ a. is_any_component (value_of name.now a)) extended }
{
    EXTENDED.iter().all(|which| is_any_value(name.get(*which)))
}

fn push_edition(out: &mut Vec<u8>, name: &Wfn) -> Result<(), Memory>
    ensures { OnOk result (out.new.items ≡ out.old.items ++ edition_component name.now) }
{
    let edition = name.get(Attribute::Edition);
    if is_edition_alone(name) {
        return push_component(out, edition);
    }
    out.push(b'~')?;
    push_component(out, edition)?;
    push_each(out, b'~', name, &EXTENDED)
}

// Writes all components. The caller removes the colons at the end, which a canonical URI doesn't have.
fn push_components(out: &mut Vec<u8>, name: &Wfn) -> Result<(), Memory>
    ensures { OnOk result (out.new.items ≡ out.old.items ++ codes "cpe:/" ++ join_with_byte 58 (components name.now)) }
{
    out.extend_from_slice(b"cpe:/")?;
    push_component(out, name.get(Attribute::Part))?;
    push_each(out, b':', name, &MIDDLE)?;
    out.push(b':')?;
    push_edition(out, name)?;
    out.push(b':')?;
    push_component(out, name.get(Attribute::Language))?;
    Ok(())
}

/// The canonical URI of a name (NIST IR 7695, 6.1.2). Each name has exactly one. Letters keep their case.
///
/// # Errors
/// Only if memory runs out.
pub fn bind_uri(alloc: Global, name: &Wfn) -> Result<Vec<u8>, Memory>
    ensures { IfOk result (λ text. text.items ≡ canon name.now) }
{
    let mut out = Vec::new(alloc);
    push_components(&mut out, name)?;
    let end = without_colons(&out, out.len());
    out.truncate(end);
    Ok(out)
}
