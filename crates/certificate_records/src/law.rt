// Laws of the lines of certificates. These functions do nothing: their clauses are the laws.
ghost use Rattle.std.specs.Prelude.{◌≡◌, true, Ok, Err, Some, None, List, ℕ, IsUtf8};
ghost use Rattle.cpe_records.specs.declared.member.Member.TheVariants as member;
ghost use Rattle.cpe_records.specs.declared.member.RecordFault.TheVariants as record_fault;
ghost use Rattle.cpe_records.specs.Reading.{record_of};
ghost use Rattle.cpe_rows.specs.Prelude.{IsLawful, Rows};
ghost use Rattle.cpe_rows.specs.Reach.{Among};
ghost use Rattle.cpe_rows.specs.declared.statement.Statement.{Statement};
ghost use Rattle.certificate_check.specs.Good.{Good};
ghost use Rattle.certificate_check.specs.declared.certificate.Certificate.{Certificate};
ghost use Rattle.certificate_check.specs.declared.certificate.Why.{Why};
ghost use Rattle.certificate_records.specs.Reading.{certificate_read_of};
ghost use Rattle.certificate_records.specs.Whole.{HasNames, is_formed};
ghost use Rattle.certificate_records.specs.Written.{certificate_text};

use cpe_uri::read_any_is;

/// Law: the written form of a certificate is read as that certificate, if it has the form of a line. The other
/// conditions are true of every certificate: its names are well-formed, and its written form is UTF-8.
pub fn written_is_read()
    ensures { (p : Certificate) → HasNames p.why → is_formed p ≡ true → IsUtf8 (certificate_text p) → certificate_read_of (certificate_text p) ≡ Ok (Some p) }
{
    read_any_is();
}

/// Law: a certificate that is good for a statement of lawful rows has the form of a line. So its written form is read
/// as that certificate.
pub fn good_certificates_are_read()
    ensures formed { (rows : Rows) → IsLawful rows → (s : Statement) → Among rows.statements s → (w : Why) → Good rows s w
        → is_formed (record { id = s.id; why = w }) ≡ true }
    ensures read { (rows : Rows) → IsLawful rows → (s : Statement) → Among rows.statements s → (w : Why) → Good rows s w
        → IsUtf8 (certificate_text (record { id = s.id; why = w })) → certificate_read_of (certificate_text (record { id = s.id; why = w })) ≡ Ok (Some (record { id = s.id; why = w })) }
{
    written_is_read();
}

/// Law: a line whose member `do` is `proof` is no record.
pub fn certificates_are_no_records()
    ensures { (line : List ℕ) → ¬ (certificate_read_of line ≡ Ok None) → record_of line ≡ Err (record_fault.Member member.Do) }
{}
