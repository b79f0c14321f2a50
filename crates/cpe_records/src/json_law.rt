// Laws. These functions do nothing: their clauses are the laws.
ghost use Rattle.cpe_records.specs.JsonTexts.{PrintsAreTexts, ValuesAreTexts};

/// Law: every string of a value is UTF-8 if the text from which the value is read is UTF-8.
pub fn values_are_texts()
    ensures { ValuesAreTexts }
{}

/// Law: the printed form of a value is UTF-8 if its strings, keys and numbers are UTF-8.
pub fn prints_are_texts()
    ensures { PrintsAreTexts }
{}
