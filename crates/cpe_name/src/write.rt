// Writes the text of a well-formed name.
ghost use Rattle.std.specs.Prelude.{◌≡◌, ◌++◌, ◌∷◌, IfOk, OnOk, flat_map};
ghost use Rattle.cpe_name.specs.Text.{value_text, attribute_text, output_text};

use crate::attribute::text_of;
use crate::{ATTRIBUTES, Attribute, Wfn};
use cpe_values::{Memory, Style, Value, push_spelling};
use std::alloc::Global;

fn push_value(out: &mut Vec<u8>, value: &Value) -> Result<(), Memory>
    ensures { OnOk result (out.new.items ≡ out.old.items ++ value_text value.now) }
{
    match value {
        Value::Any => out.extend_from_slice(b"ANY")?,
        Value::Na => out.extend_from_slice(b"NA")?,
        Value::Text(text) => {
            out.push(b'"')?;
            push_spelling(out, Style::Wfn, text)?;
            out.push(b'"')?;
        }
    }
    Ok(())
}

fn push_attribute(out: &mut Vec<u8>, name: &Wfn, which: Attribute) -> Result<(), Memory>
    ensures { OnOk result (out.new.items ≡ out.old.items ++ attribute_text name.now which) }
{
    out.extend_from_slice(text_of(which))?;
    out.push(b'=')?;
    push_value(out, name.get(which))
}

fn push_later(out: &mut Vec<u8>, name: &Wfn, later: &[Attribute]) -> Result<(), Memory>
    ensures { OnOk result (out.new.items ≡ out.old.items ++ flat_map (λ a. 44 ∷ attribute_text name.now a) later.now) }
{
    for which in later {
        out.push(b',')?;
        push_attribute(out, name, *which)?;
    }
    Ok(())
}

/// The text of a name, such as `wfn:[part="a",..,other=ANY]`. It has all eleven attributes in their order, and no
/// spaces.
///
/// # Errors
/// `Memory` if memory runs out; there is no other error.
pub fn write_wfn(alloc: Global, name: &Wfn) -> Result<Vec<u8>, Memory>
    ensures { IfOk result (λ out. out.items ≡ output_text name.now) }
{
    let mut out = Vec::new(alloc);
    out.extend_from_slice(b"wfn:[")?;
    push_attribute(&mut out, name, Attribute::Part)?;
    push_later(&mut out, name, &ATTRIBUTES[1..])?;
    out.push(b']')?;
    Ok(out)
}
