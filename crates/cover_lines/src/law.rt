// Laws of covers. The function does nothing: its clauses are the laws.
ghost use Rattle.cover_lines.specs.Laws.{CoversAreOne, CoversStay, CoversAreOfNames, NamesAreCovered, CoversMeanTheSame};

use cpe_fs::one_text;
use cpe_relation::law::{cover_laws, relation_laws};

/// The laws of covers. A cover is the one sorted list of exactly the names that no other name covers. The cover of a
/// cover is the same list. Lists of the same names, up to order, repeats and letter case, have the same cover. Each of
/// the names is in the cover, or some name of the cover covers it. Some name of the cover covers a name exactly if some
/// of the names does.
pub fn cover_list_laws()
    ensures one { CoversAreOne }
    ensures stay { CoversStay }
    ensures names { CoversAreOfNames }
    ensures covered { NamesAreCovered }
    ensures same { CoversMeanTheSame }
{
    cover_laws();
    relation_laws();
    one_text();
}
