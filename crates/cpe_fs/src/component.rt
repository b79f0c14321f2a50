// The component of a single value (NIST IR 7695, 6.2).
ghost use Rattle.std.specs.Prelude.{◌≡◌, ℕ, List, Some, None, IfOk, IfErr, MatchResult};
ghost use Rattle.cpe_values.specs.declared.value.Value.{Value};
ghost use Rattle.cpe_values.specs.Values.{IsValue};
ghost use Rattle.cpe_fs.specs.Grammar.{fs_component};
ghost use Rattle.cpe_fs.specs.Component.{HasComponent, IsFsComponent, RefusesComponent, is_component, read_component};

use crate::bind::push_component;
use crate::scan::scan_text;
use crate::values::value_of;
use cpe_values::{Memory, Value};
use std::alloc::Global;
use thiserror::Error;

/// Why no value was read from a text.
#[derive(Clone, Copy, Debug, PartialEq, Eq, Error)]
pub enum ComponentFault {
    /// No value has this text as its component.
    #[error("no value has this text")]
    NotComponent,
    /// Memory ran out.
    #[error("out of memory")]
    Memory,
}

#[tactic(auto, unfolding(crate::specs::Component::is_component))]
fn is_component(text: &[u8]) -> bool
    ensures { result ≡ is_component text.now }
{
    matches!(scan_text(text), Ok([]))
}

/// The value that has this text as its component in a formatted string (NIST IR 7695, 6.2). `*` is ANY, `-` is NA, and
/// anything else is a text. Letters keep their case. The function doesn't check which attributes may have the value.
///
/// # Errors
/// [`NotComponent`](ComponentFault::NotComponent) exactly if no value has this text. Otherwise
/// [`Memory`](ComponentFault::Memory), if memory runs out.
pub fn unbind_component(alloc: Global, text: &[u8]) -> Result<Value, ComponentFault>
    // The returned value has this component.
    ensures found { IfOk result (λ value. HasComponent value text.now) }
    // If a value has this component, it is returned, unless memory runs out.
    ensures only { (value : Value) → HasComponent value text.now → MatchResult result (λ found. found ≡ value) (λ fault. fault ≡ ComponentFault.Memory) }
    // The error `NotComponent` means that no value has this text. The error `Memory` means that some value has it.
    ensures refused { IfErr result (λ fault. RefusesComponent fault text.now) }
    // The result equals that of the function `read_component`, unless memory runs out.
    ensures read { MatchResult result (λ value. read_component text.now ≡ Some value) (λ fault. fault ≡ ComponentFault.NotComponent → read_component text.now ≡ None) }
{
    if !is_component(text) {
        return Err(ComponentFault::NotComponent);
    }
    match value_of(alloc, text) {
        Ok(value) => Ok(value),
        Err(_) => Err(ComponentFault::Memory),
    }
}

/// The component of a value in a formatted string (NIST IR 7695, 6.2). Each value has exactly one. Letters keep their
/// case.
///
/// # Errors
/// Only if memory runs out.
pub fn bind_component(alloc: Global, value: &Value) -> Result<Vec<u8>, Memory>
    ensures { IfOk result (λ text. text.items ≡ fs_component value.now) }
{
    let mut out = Vec::new(alloc);
    push_component(&mut out, value)?;
    Ok(out)
}

/// Law: `read_component` returns the value that has a text as its component. If no value has the text, it returns
/// nothing. No text is the component of two values.
pub fn read_component_is()
    ensures named { (value : Value) (s : List ℕ) → HasComponent value s → read_component s ≡ Some value }
    ensures found { (value : Value) (s : List ℕ) → read_component s ≡ Some value → HasComponent value s }
    ensures none { (s : List ℕ) → read_component s ≡ None → ¬ (IsFsComponent s) }
    ensures bound { (value : Value) → IsValue value → HasComponent value (fs_component value) }
{}
