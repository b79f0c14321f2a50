// Names in separate memory.
ghost use Rattle.std.specs.Prelude.{◌≡◌, IfOk};

use cpe_name::Wfn;
use cpe_values::Memory;
use std::alloc::Global;
use std::marker::Model;

/// A name in separate memory. So an enum that has either a name or something smaller is small.
///
/// Contracts see it as the name.
#[derive(Debug, Drop)]
pub struct BoxedName {
    name: Box<Wfn>,
}

impl Model for BoxedName {
    ghost use Rattle.cpe_name.specs.Eleven.{Values};

    ghost Value = { Values };

    ghost view = { λ b. b.name.value };
}

impl BoxedName {
    /// The name, moved to separate memory.
    ///
    /// # Errors
    /// Only if memory runs out. The name is then dropped.
    pub fn new(alloc: Global, name: Wfn) -> Result<BoxedName, Memory>
        ensures { IfOk result (λ b. b ≡ name) }
    {
        match Box::new(alloc, name) {
            Ok(name) => Ok(BoxedName { name }),
            Err(_) => Err(Memory),
        }
    }

    /// The name. Allocates: no.
    pub fn as_name(&self) -> &Wfn
        ensures { result.now ≡ self.now }
    {
        &self.name
    }

    /// A copy of the name, in separate memory.
    ///
    /// # Errors
    /// Only if memory runs out.
    pub fn copy(&self, alloc: Global) -> Result<BoxedName, Memory>
        ensures { IfOk result (λ b. b ≡ self.now) }
    {
        match self.as_name().copy(alloc) {
            Ok(name) => BoxedName::new(alloc, name),
            Err(fault) => Err(fault),
        }
    }
}
