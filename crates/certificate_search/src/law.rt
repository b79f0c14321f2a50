// Laws of a statement's certificate. These functions do nothing: their clauses are the laws.
ghost use Rattle.certificate_search.specs.Laws.{CertificatesAreGood, CertificatesGiveVerdicts};

/// Law: the certificate of a statement has the statement's verdict, and in lawful rows it is good.
pub fn certificates_are_good()
    ensures verdicts { CertificatesGiveVerdicts }
    ensures good { CertificatesAreGood }
{}
