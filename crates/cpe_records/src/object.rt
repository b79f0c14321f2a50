// Names that are written as objects of their attributes.
ghost use Rattle.std.specs.Prelude.{◌≡◌, true, Err, IfOk, IfErr, IsErr, OnOk};
ghost use Rattle.serde_json.specs.View.{view};
ghost use Rattle.cpe_rows.specs.cpe_name.Eleven.{put};
ghost use Rattle.cpe_rows.specs.cpe_name.Names.{any_values};
ghost use Rattle.cpe_fs.specs.Component.{read_component};
ghost use Rattle.cpe_records.specs.NameObjects.{component_in, component_at, has_attribute_shape, member_value_at, FindsValue, Lacks, HasValueOf, IsFilled};
ghost use Rattle.cpe_records.specs.Names.{object_name};

use crate::member::NotName;
use crate::name::lowered;
use crate::words::attribute_word;
use cpe_fs::{ComponentFault, unbind_component};
use cpe_rows::{ATTRIBUTES, Attribute, Memory, Value as Held, Wfn};
use serde_json::Value;
use std::alloc::Global;

// The value that a component spells. The contract says only the one fact that proofs about callers need.
fn component_of(alloc: Global, text: &str) -> Result<Held, ComponentFault>
    ensures { FindsValue result (read_component text.now) }
{
    unbind_component(alloc, text.as_bytes())
}

fn component_in(alloc: Global, json: &Value) -> Result<Held, ComponentFault>
    ensures { FindsValue result (component_in (view json.now)) }
{
    match json.as_str() {
        Some(text) => component_of(alloc, text),
        None => Err(ComponentFault::NotComponent),
    }
}

fn component_at(alloc: Global, json: &Value, which: Attribute) -> Result<Held, ComponentFault>
    ensures { FindsValue result (component_at which (view json.now)) }
{
    match json.get(attribute_word(which)) {
        Some(member) => component_in(alloc, member),
        None => Ok(Held::Any),
    }
}

// Sets the attribute to this value, if the attribute may have it. Returns whether it may.
fn put(name: &mut Wfn, which: Attribute, value: Held) -> bool
    ensures shape { result ≡ has_attribute_shape which value }
    ensures put { result ≡ true → name.new ≡ put name.old which value }
{
    name.lawful();
    match name.set(which, value) {
        Ok(()) => {
            name.lawful();
            true
        }
        Err(_) => false,
    }
}

// Sets the attribute to its value from the object.
fn give(alloc: Global, name: &mut Wfn, json: &Value, which: Attribute) -> Result<(), ComponentFault>
    ensures given { OnOk result (HasValueOf (view json.now) which name.old name.new) }
    ensures lacks { IfErr result (λ fault. Lacks fault (member_value_at (view json.now) which)) }
{
    match component_at(alloc, json, which) {
        Ok(value) => {
            if put(name, which, value) {
                Ok(())
            } else {
                Err(ComponentFault::NotComponent)
            }
        }
        Err(fault) => Err(fault),
    }
}

// Sets each attribute to its value from the object, up to the first attribute without a value.
fn fill(alloc: Global, name: &mut Wfn, json: &Value) -> Result<Option<Attribute>, Memory>
    requires { name.old ≡ any_values }
    ensures { IfOk result (λ without. IsFilled (view json.now) without name.new) }
{
    for which in &ATTRIBUTES {
        match give(alloc, name, json, *which) {
            Ok(()) => (),
            Err(ComponentFault::NotComponent) => return Ok(Some(*which)),
            Err(ComponentFault::Memory) => return Err(Memory),
        }
    }
    Ok(None)
}

// Returns the fault, and drops the name. The drop has a function of its own: in a caller, the name's eleven values
// would hide other facts from the prover.
fn without(_name: Wfn, which: Attribute) -> Result<Wfn, NotName>
    ensures { result ≡ Err (NotName.Attribute which) }
{
    Err(NotName::Attribute(which))
}

fn unfilled<T>(_name: Wfn, memory: Memory) -> Result<T, Memory>
    ensures { IsErr result }
{
    Err(memory)
}

/// The name, in lower case, that has the attributes of this object; or the first attribute without a value.
///
/// # Errors
/// Only that memory ran out.
#[tactic(auto, unfolding(crate::specs::Names::object_name))]
pub(crate) fn object_name(alloc: Global, json: &Value) -> Result<Result<Wfn, NotName>, Memory>
    ensures { IfOk result (λ found. found ≡ object_name (view json.now)) }
{
    let mut name = Wfn::any();
    match fill(alloc, &mut name, json) {
        Ok(None) => Ok(Ok(lowered(name))),
        Ok(Some(which)) => Ok(without(name, which)),
        Err(memory) => unfilled(name, memory),
    }
}
