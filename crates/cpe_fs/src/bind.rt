// Writes the formatted strings of names (NIST IR 7695, 6.2.2).
ghost use Rattle.std.specs.Prelude.{◌≡◌, ◌++◌, ◌∷◌, ◌+◌, ◌*◌, ◌^◌, ◌<◌, ◌≤◌, drop, length, true, IfOk, OnOk, flat_map};
ghost use Rattle.cpe_values.specs.Spelling.{edge_text, style_character};
ghost use Rattle.cpe_values.specs.declared.spelling.Style.TheVariants as style;
ghost use Rattle.cpe_values.specs.declared.value.Value.TheVariants.{Any};
ghost use Rattle.cpe_name.specs.Names.{attributes, value_of};
ghost use Rattle.cpe_fs.specs.Grammar.{fs_component, fs_text};
ghost use Rattle.cpe_fs.specs.Scanning.{any_fs_tail};

use cpe_name::{ATTRIBUTES, Attribute, Wfn};
use cpe_values::{Edge, Memory, Style, Value, is_bare_byte, push_spelling, skip_bare};
use std::alloc::Global;

pub(crate) fn push_component(out: &mut Vec<u8>, value: &Value) -> Result<(), Memory>
    ensures { OnOk result (out.new.items ≡ out.old.items ++ fs_component value.now) }
{
    match value {
        Value::Any => out.push(b'*')?,
        Value::Na => out.push(b'-')?,
        Value::Text(text) => push_spelling(out, Style::Formatted, text)?,
    }
    Ok(())
}

// Writes a colon and a component for each attribute.
fn push_fields(out: &mut Vec<u8>, name: &Wfn, which: &[Attribute]) -> Result<(), Memory>
    ensures { OnOk result (out.new.items ≡ out.old.items ++ flat_map (λ a. 58 ∷ fs_component (value_of name.now a)) which.now) }
{
    for attribute in which {
        out.push(b':')?;
        push_component(out, name.get(*attribute))?;
    }
    Ok(())
}

fn is_any(value: &Value) -> bool
    ensures { result ≡ true → value.now ≡ Any }
{
    matches!(value, Value::Any)
}

// Whether each value after the version is ANY, as in most names.
#[tactic(auto, using(crate::proofs::AnyTail::tail_written))]
fn is_any_tail(name: &Wfn) -> bool
    ensures { result ≡ true → flat_map (λ a. 58 ∷ fs_component (value_of name.now a)) (drop 4 attributes) ≡ any_fs_tail }
{
    is_any(name.get(Attribute::Update))
        && is_any(name.get(Attribute::Edition))
        && is_any(name.get(Attribute::Language))
        && is_any(name.get(Attribute::SwEdition))
        && is_any(name.get(Attribute::TargetSw))
        && is_any(name.get(Attribute::TargetHw))
        && is_any(name.get(Attribute::Other))
}

// Writes what follows the version. If all seven values are ANY, they are written at once.
fn push_tail(out: &mut Vec<u8>, name: &Wfn) -> Result<(), Memory>
    ensures { OnOk result (out.new.items ≡ out.old.items ++ flat_map (λ a. 58 ∷ fs_component (value_of name.now a)) (drop 4 attributes)) }
{
    if is_any_tail(name) {
        out.extend_from_slice(b":*:*:*:*:*:*:*")?;
        return Ok(());
    }
    push_fields(out, name, &ATTRIBUTES[4..])
}

/// The formatted string of a name (NIST IR 7695, 6.2.2). Each name has exactly one. Letters keep their case.
///
/// # Errors
/// Only if memory runs out.
pub fn bind_fs(alloc: Global, name: &Wfn) -> Result<Vec<u8>, Memory>
    ensures { IfOk result (λ text. text.items ≡ fs_text name.now) }
{
    append_fs(Vec::new(alloc), name)
}

/// Appends the formatted string of a name, as [`bind_fs`] writes it, to a buffer.
///
/// # Errors
/// Only if memory runs out. The buffer is then dropped.
pub fn append_fs(buffer: Vec<u8>, name: &Wfn) -> Result<Vec<u8>, Memory>
    ensures { IfOk result (λ text. text.items ≡ buffer.items ++ fs_text name.now) }
{
    let mut out = buffer;
    out.extend_from_slice(b"cpe:2.3")?;
    push_fields(&mut out, name, &ATTRIBUTES[..4])?;
    push_tail(&mut out, name)?;
    Ok(out)
}

fn edge_len(edge: Edge) -> u64
    ensures value { result ≡ length (edge_text edge) }
    ensures small { result < 2 ^ 32 }
{
    match edge {
        Edge::None => 0,
        Edge::Star => 1,
        Edge::Marks(marks) => u64::from(marks),
    }
}

fn characters_len(body: &[u8]) -> u128
    ensures value { result ≡ length (flat_map (style_character style.Formatted) body.now) }
    ensures small { result ≤ 2 * length body.now }
{
    let mut len = 0u128;
    for byte in body {
        len += if is_bare_byte(Style::Formatted, *byte) {
            1
        } else {
            2
        };
    }
    len
}

// The length of a body in a formatted string. Most bodies have only bare characters, with one byte each.
#[tactic(auto, using(crate::proofs::BareLengths::bare_lengths))]
fn body_len(body: &[u8]) -> u128
    ensures value { result ≡ length (flat_map (style_character style.Formatted) body.now) }
    ensures small { result < 2 ^ 65 }
{
    let rest = skip_bare(body);
    let bare = body.len().saturating_sub(rest.len());
    bare as u128 + characters_len(rest)
}

fn component_len(value: &Value) -> u128
    ensures value { result ≡ length (fs_component value.now) }
    ensures small { result < 2 ^ 66 }
{
    match value {
        Value::Any => 1,
        Value::Na => 1,
        Value::Text(text) => {
            u128::from(edge_len(text.lead()))
                + body_len(text.stem())
                + u128::from(edge_len(text.trail()))
        }
    }
}

fn fields_len(name: &Wfn, which: &[Attribute]) -> u128
    requires { length which.now < 12 }
    ensures value { result ≡ length (flat_map (λ a. 58 ∷ fs_component (value_of name.now a)) which.now) }
    ensures small { result < 2 ^ 70 }
{
    let mut len = 0u128;
    for attribute in which {
        len += 1 + component_len(name.get(*attribute));
    }
    len
}

/// The length of the formatted string of a name, in bytes. Allocates: no.
pub fn fs_len(name: &Wfn) -> u128
    ensures { result ≡ length (fs_text name.now) }
{
    7 + fields_len(name, &ATTRIBUTES)
}
