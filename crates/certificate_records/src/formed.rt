// Laws of every certificate, by the types of its parts. These functions do nothing: their clauses are the laws.
ghost use Rattle.std.specs.Prelude.{All};
ghost use Rattle.cpe_rows.specs.cpe_name.Names.{IsName};
ghost use Rattle.certificate_records.specs.Whole.{HasNames};

use certificate_check::Why;
use cpe_rows::Wfn;

fn are_names(names: &[Wfn])
    ensures { All IsName names.now }
{
    for name in names {
        name.lawful();
    }
}

/// Law: the names of a certificate are well-formed (NIST IR 7695, 5).
pub(crate) fn formed(why: &Why)
    ensures { HasNames why.now }
{
    match why {
        Why::Logic { of, .. } => {
            for given in of.as_slice() {
                let Some(child) = given else {
                    continue;
                };
                formed(child);
            }
        }
        Why::Pair { fact, item, .. } => {
            are_names(fact.as_slice());
            are_names(item.as_slice());
        }
        Why::Plain(_) => {}
    }
}
