// Laws of certificates. These functions do nothing: their clauses are the laws.
ghost use Rattle.certificate_check.specs.Checks.{GoodCertificatesAreRight};
ghost use Rattle.certificate_check.specs.Worked.{IsTested};

/// Law: the truth of a certificate that is good for a statement is the verdict of this statement, in all rows.
pub fn good_certificates_are_right()
    ensures { GoodCertificatesAreRight }
{}

/// Law, by an example: a certificate passes with the right truth, fails with another truth, and is absent under an
/// unknown id.
pub fn a_row_is_worked_out()
    ensures { IsTested }
{}
