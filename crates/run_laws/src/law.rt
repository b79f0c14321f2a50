// Laws about runs of the program. These functions do nothing: their clauses are the laws.
ghost use Rattle.run_laws.specs.Theorems.{ConvertedIsSame, ExplainedIsChecked, HeldIsVerdict, LinesAreCheckedInTurn, RowsAreKept, SavedIsLoaded};

/// Any lines leave lawful rows, and the texts of these rows are UTF-8.
pub fn rows_are_kept()
    ensures { RowsAreKept }
{}

/// If `load` reads what `save` writes for an input, it writes the same table that `evaluate` writes for this input.
pub fn saved_is_loaded()
    ensures { SavedIsLoaded }
{
    snapshot_bytes::law::states_have_snapshots();
}

/// The lines that `convert` writes for an input leave the rows that the input leaves, if no record of the input has
/// too long a form.
pub fn converted_is_same()
    ensures { ConvertedIsSame }
{
    convert_lines::law::written_rows_stay();
    cpe_records::json_law::prints_are_texts();
}

/// `check` says of each certificate at the end of the output of `explain` that it holds. For this, `check` reads the
/// input of `explain`, and then these certificates.
pub fn explained_is_checked()
    ensures { ExplainedIsChecked }
{
    certificate_search::law::certificates_are_good();
    certificate_records::law::good_certificates_are_read();
    cpe_records::json_law::prints_are_texts();
}

/// A certificate has the verdict of its statement, if `check` says that the certificate holds. What `check` writes
/// for a line follows what it writes for the lines before.
pub fn held_is_verdict()
    ensures in_turn { LinesAreCheckedInTurn }
    ensures verdict { HeldIsVerdict }
{
    certificate_check::law::good_certificates_are_right();
}
