// Laws of the relations. These functions do nothing: their clauses are the laws.
ghost use Rattle.std.specs.Prelude.{◌≡◌, ◌↔◌, ◌⊎◌, ℕ, List, Bool, true, false, IsTrue};
ghost use Rattle.cpe_values.specs.declared.value.Value.{Value};
ghost use Rattle.cpe_values.specs.Parts.{Parts};
ghost use Rattle.cpe_values.specs.Lower.{has_specials};
ghost use Rattle.cpe_name.specs.Prelude.{lower_name, Values};
ghost use Rattle.cpe_name.specs.Wildcards.{name_has_specials};
ghost use Rattle.cpe_relation.specs.Matching.{Matches};
ghost use Rattle.cpe_relation.specs.MatchTests.{matches_text};
ghost use Rattle.cpe_relation.specs.Table.{relation};
ghost use Rattle.cpe_relation.specs.Related.{Related};
ghost use Rattle.cpe_relation.specs.NameRelation.{relations, name_relation, covers};
ghost use Rattle.cpe_relation.specs.Laws.{converse, is_plain_name};
ghost use Rattle.cpe_relation.specs.Near.{near};
ghost use Rattle.cpe_relation.specs.Maybe.{maybe, values_meet};

use crate::relation::Relation;

/// Law: the test `matches` is true exactly if a split of the text exists. Two values have exactly one relation: the
/// function `relation` computes it, and the statements `Related` describe it.
pub fn one_relation()
    ensures split { (p : Parts) (t : List ℕ) → IsTrue (matches_text p t) ↔ Matches p t }
    ensures table { (a b : Value) (r : Relation) → Related a b r ↔ (r ≡ relation a b) }
{}

/// Law: a name covers another exactly if their relation is EQUAL or SUPERSET. Covering is transitive. Names that cover
/// each other are equal in lower case. If a name covers another, its product is near the other's product.
pub fn cover_laws()
    ensures relation { (a b : Values) → IsTrue (covers a b) ↔ ((name_relation a b ≡ Relation.Equal) ⊎ (name_relation a b ≡ Relation.Superset)) }
    ensures transitive { (a b c : Values) → IsTrue (covers a b) → IsTrue (covers b c) → IsTrue (covers a c) }
    ensures mutual { (a b : Values) → IsTrue (covers a b) → IsTrue (covers b a) → lower_name a ≡ lower_name b }
    ensures near { (a b : Values) → IsTrue (covers a b) → IsTrue (near a.product b.product) }
{}

/// Law: how relations depend on letter case and specials.
pub fn relation_laws()
    // Letter case makes no difference.
    ensures lower { (a b : Values) → relations (lower_name a) (lower_name b) ≡ relations a b }
    // An attribute is UNDEFINED exactly if the target has a special.
    ensures undefined { (a b : Value) → (relation a b ≡ Relation.Undefined) ↔ IsTrue (has_specials b) }
    // A name without specials is EQUAL to itself.
    ensures equal { (a : Values) → IsTrue (is_plain_name a) → name_relation a a ≡ Relation.Equal }
    // If two names without specials are exchanged, SUPERSET becomes SUBSET and SUBSET becomes SUPERSET. The other
    // relations are unchanged.
    ensures converse { (a b : Values) → IsTrue (is_plain_name a) → IsTrue (is_plain_name b) → name_relation b a ≡ converse (name_relation a b) }
    // A pattern matches its own body.
    ensures body { (p : Parts) → IsTrue (matches_text p p.body) }
{}

/// Law: a name that covers another never may cover it as well. What a name covers has no special, and what it may cover
/// has one. In both cases the products meet. Let a name cover a second name. If the second name may cover a third, so
/// may the first.
pub fn maybe_laws()
    ensures apart { (a b : Values) → IsTrue (covers a b) → IsTrue (maybe a b) → ⊥ }
    ensures whole { (a b : Values) → IsTrue (covers a b) → name_has_specials b ≡ false }
    ensures part { (a b : Values) → IsTrue (maybe a b) → name_has_specials b ≡ true }
    ensures meet { (a b : Values) → IsTrue (covers a b) ⊎ IsTrue (maybe a b) → IsTrue (values_meet a.product b.product) }
    ensures lower { (a b : Values) → maybe (lower_name a) (lower_name b) ≡ maybe a b }
    ensures through { (a b c : Values) → IsTrue (covers a b) → IsTrue (maybe b c) → IsTrue (maybe a c) }
{}
