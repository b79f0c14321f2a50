// What a pass over the relations of the attributes has found so far.
ghost use Rattle.std.specs.Prelude.{◌≡◌};
ghost use Rattle.cpe_relation.specs.Attributes.{seen_nothing, seen_with, relation_seen};

use crate::relation::Relation;

// Whether some relation was DISJOINT; and whether all relations were EQUAL, all SUBSET or EQUAL, all SUPERSET or EQUAL.
#[derive(Clone, Copy, Debug)]
pub(crate) struct Seen {
    disjoint: bool,
    equal: bool,
    within: bool,
    above: bool,
}

impl Seen {
    pub(crate) fn nothing() -> Seen
        ensures { result ≡ seen_nothing }
    {
        Seen {
            disjoint: false,
            equal: true,
            within: true,
            above: true,
        }
    }

    pub(crate) fn with(self, relation: Relation) -> Seen
        ensures { result ≡ seen_with self relation }
    {
        Seen {
            disjoint: self.disjoint | relation.is_disjoint(),
            equal: self.equal & relation.is_equal(),
            within: self.within & relation.is_within(),
            above: self.above & relation.is_above(),
        }
    }

    // The relation of the names, after all attributes.
    pub(crate) fn relation(self) -> Relation
        ensures { result ≡ relation_seen self }
    {
        if self.disjoint {
            return Relation::Disjoint;
        }
        if self.equal {
            return Relation::Equal;
        }
        if self.within {
            return Relation::Subset;
        }
        if self.above {
            return Relation::Superset;
        }
        Relation::Undefined
    }
}
