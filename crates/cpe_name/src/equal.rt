// Equality and hash input of names. Equality is that of contracts, so the case of letters counts.
ghost use Rattle.std.specs.Prelude.{◌≡◌, ◌↔◌, IsTrue};
ghost use Rattle.std.specs.Cmp.{partial_equiv_from_equiv, decided};
ghost use Rattle.std.specs.Hash.{same_Alike};
ghost use Rattle.cpe_name.specs.Equal.{same_name, name_input, same_name-Decides};

use crate::{ATTRIBUTES, Attribute, Wfn};
use std::hash::{Hash, Hasher};

impl PartialEq for Wfn {
    ghost eq = { same_name };

    ghost laws = { partial_equiv_from_equiv (decided same_name same_name-Decides) };

    fn eq(&self, other: &Wfn) -> bool
        ensures value { result ≡ same_name self.now other.now }
        ensures same { IsTrue result ↔ (self.now ≡ other.now) }
    {
        is_same(self, other)
    }
}

fn is_same(a: &Wfn, b: &Wfn) -> bool
    ensures { result ≡ same_name a.now b.now }
{
    ATTRIBUTES
        .iter()
        .all(|which| a.get(*which) == b.get(*which))
}

impl Eq for Wfn {
    ghost laws = { decided same_name same_name-Decides };
}

impl Hash for Wfn {
    ghost hash_input = { name_input };

    ghost respects_eq = { (same_Alike name_input same_name-Decides).fed };

    fn hash<H: Hasher>(&self, state: &mut H) {
        self.get(Attribute::Part).hash(state);
        self.get(Attribute::Vendor).hash(state);
        self.get(Attribute::Product).hash(state);
        self.get(Attribute::Version).hash(state);
        self.get(Attribute::Update).hash(state);
        self.get(Attribute::Edition).hash(state);
        self.get(Attribute::Language).hash(state);
        self.get(Attribute::SwEdition).hash(state);
        self.get(Attribute::TargetSw).hash(state);
        self.get(Attribute::TargetHw).hash(state);
        self.get(Attribute::Other).hash(state);
    }
}
