// Ids of advisories in groups, by the products of their names.
ghost use Rattle.std.specs.Prelude.{◌≡◌, ◌∷◌, ◌++◌, [], OnOk, OnErr, if◌then◌else◌, false, is_some, position, true, bytes_eq};
ghost use Rattle.std.specs.Map.{lookup};
ghost use Rattle.cpe_rows.specs.cpe_values.Same.{same_value};
ghost use Rattle.cpe_rows.specs.cpe_values.declared.value.Value.{Value};
ghost use Rattle.cpe_rows.specs.After.{without_first};
ghost use Rattle.advise_ranges.specs.Groups.{group};

use cpe_rows::{List, Memory, Text, Value};
use indexmap::IndexMap;
use std::alloc::Global;
use std::marker::Model;
use std::mem::replace;

/// Lists of ids, one for each product.
#[derive(Drop)]
pub(crate) struct Groups {
    ids_by_product: IndexMap<Value, List<Text>>,
}

impl Model for Groups {
    ghost use Rattle.advise_ranges.specs.Groups.{Grouped};

    ghost Value = { Grouped };

    ghost view = { λ g. g.ids_by_product.entries };
}

// The list of ids without the first id that is equal to this one.
fn without(ids: List<Text>, id: &Text) -> List<Text>
    ensures { result ≡ without_first (bytes_eq id.now) ids }
{
    let mut ids = ids.into_vec();
    match place_of(&ids, id) {
        Some(place) => {
            drop(ids.remove(place));
            List::from_vec(ids)
        }
        None => List::from_vec(ids),
    }
}

fn place_of(ids: &[Text], id: &Text) -> Option<usize>
    ensures { result ≡ position (bytes_eq id.now) ids.now }
{
    ids.iter().position(|other| *id == *other)
}

// Adds an id at the end of a product's list. The product has a list.
fn push_id_of(
    ids_by_product: &mut IndexMap<Value, List<Text>>,
    product: &Value,
    id: Text,
) -> Result<(), Memory>
    requires { is_some (lookup (same_value product.now) ids_by_product.old.entries) ≡ true }
    ensures ok { OnOk result ((v : Value) → group ids_by_product.new.entries v ≡ (if same_value product.now v then group ids_by_product.old.entries v ++ id ∷ [] else group ids_by_product.old.entries v)) }
    ensures err { OnErr result ((v : Value) → group ids_by_product.new.entries v ≡ group ids_by_product.old.entries v) }
{
    match ids_by_product.get_mut(product) {
        Some(ids) => match ids.push(id) {
            Ok(()) => Ok(()),
            Err(memory) => Err(memory),
        },
        None => unreachable!(),
    }
}

fn remove_id(alloc: Global, ids: &mut List<Text>, id: &Text)
    ensures { ids.new ≡ without_first (bytes_eq id.now) ids.old }
{
    let all = replace(ids, List::new(alloc));
    *ids = without(all, id);
}

fn remove_id_of(
    alloc: Global,
    ids_by_product: &mut IndexMap<Value, List<Text>>,
    product: &Value,
    id: &Text,
)
    ensures { (v : Value) → group ids_by_product.new.entries v ≡ (if same_value product.now v then without_first (bytes_eq id.now) (group ids_by_product.old.entries v) else group ids_by_product.old.entries v) }
{
    if let Some(ids) = ids_by_product.get_mut(product) {
        remove_id(alloc, ids, id);
    }
}

fn is_empty(ids_by_product: &IndexMap<Value, List<Text>>, product: &Value) -> bool
    ensures { result ≡ true → group ids_by_product.now.entries product.now ≡ [] }
{
    match ids_by_product.get(product) {
        Some(ids) => ids.as_slice().is_empty(),
        None => false,
    }
}

// Removes the list of a product, if the list is empty.
fn drop_empty(ids_by_product: &mut IndexMap<Value, List<Text>>, product: &Value)
    ensures { (v : Value) → group ids_by_product.new.entries v ≡ group ids_by_product.old.entries v }
{
    if is_empty(ids_by_product, product) {
        drop(ids_by_product.swap_remove(product));
    }
}

fn has_list(ids_by_product: &IndexMap<Value, List<Text>>, product: &Value) -> bool
    ensures { result ≡ is_some (lookup (same_value product.now) ids_by_product.now.entries) }
{
    ids_by_product.contains_key(product)
}

// Adds a list with its first id for a product. The product has no list.
fn put_first(
    alloc: Global,
    ids_by_product: &mut IndexMap<Value, List<Text>>,
    product: Value,
    id: Text,
) -> Result<(), Memory>
    requires { is_some (lookup (same_value product) ids_by_product.old.entries) ≡ false }
    ensures ok { OnOk result ((v : Value) → group ids_by_product.new.entries v ≡ (if same_value product v then group ids_by_product.old.entries v ++ id ∷ [] else group ids_by_product.old.entries v)) }
    ensures err { OnErr result ((v : Value) → group ids_by_product.new.entries v ≡ group ids_by_product.old.entries v) }
{
    let mut ids = List::new(alloc);
    ids.push(id)?;
    match ids_by_product.insert(product, ids) {
        Ok(_) => Ok(()),
        Err(_) => Err(Memory),
    }
}

impl Groups {
    /// No ids_by_product. Allocates: no.
    pub(crate) fn new(alloc: Global) -> Groups
        ensures { result ≡ [] }
    {
        Groups {
            ids_by_product: IndexMap::new(alloc),
        }
    }

    /// The ids of a product, in their order.
    pub(crate) fn of(&self, product: &Value) -> &[Text]
        ensures { result.now ≡ group self.now product.now }
    {
        match self.ids_by_product.get(product) {
            Some(list) => list.as_slice(),
            None => &[],
        }
    }

    /// Adds an id at the end of a product's list.
    ///
    /// # Errors
    /// Only that memory ran out. The ids of each product are then unchanged.
    pub(crate) fn push(&mut self, alloc: Global, product: &Value, id: &Text) -> Result<(), Memory>
        ensures ok { OnOk result ((v : Value) → group self.new v ≡ (if same_value product.now v then group self.old v ++ id.now ∷ [] else group self.old v)) }
        ensures err { OnErr result ((v : Value) → group self.new v ≡ group self.old v) }
    {
        let id = id.copy(alloc)?;
        if has_list(&self.ids_by_product, product) {
            push_id_of(&mut self.ids_by_product, product, id)
        } else {
            put_first(alloc, &mut self.ids_by_product, product.copy(alloc)?, id)
        }
    }

    /// Removes the first id that is equal to this one from a product's list.
    pub(crate) fn remove(&mut self, alloc: Global, product: &Value, id: &Text)
        ensures { (v : Value) → group self.new v ≡ (if same_value product.now v then without_first (bytes_eq id.now) (group self.old v) else group self.old v) }
    {
        remove_id_of(alloc, &mut self.ids_by_product, product, id);
        drop_empty(&mut self.ids_by_product, product);
    }
}
