// The four truths, and the tables of AND, OR and negation.
ghost use Rattle.std.specs.Prelude.{◌≡◌};
ghost use Rattle.cpe_rows.specs.Truth.{and_of, or_of, not_of};

/// What is known of a statement, a test, a fact or a check (NIST IR 7698).
#[derive(Debug, Clone, Copy, PartialEq, Eq)]
pub enum Truth {
    /// It is true.
    True,
    /// It is false.
    False,
    /// A check ended with an error.
    Error,
    /// It is not known: no result is kept for a check, the kept result is UNKNOWN, or an item is known in part.
    Unknown,
}

/// AND of two truths: the first of FALSE, ERROR, UNKNOWN and TRUE that is one of them. Allocates: no.
pub fn and_of(a: Truth, b: Truth) -> Truth
    ensures { result ≡ and_of a b }
{
    match (a, b) {
        (Truth::False, _) | (_, Truth::False) => Truth::False,
        (Truth::Error, _) | (_, Truth::Error) => Truth::Error,
        (Truth::Unknown, _) | (_, Truth::Unknown) => Truth::Unknown,
        _ => Truth::True,
    }
}

/// OR of two truths: the first of TRUE, ERROR, UNKNOWN and FALSE that is one of them. Allocates: no.
pub fn or_of(a: Truth, b: Truth) -> Truth
    ensures { result ≡ or_of a b }
{
    match (a, b) {
        (Truth::True, _) | (_, Truth::True) => Truth::True,
        (Truth::Error, _) | (_, Truth::Error) => Truth::Error,
        (Truth::Unknown, _) | (_, Truth::Unknown) => Truth::Unknown,
        _ => Truth::False,
    }
}

/// The negation: FALSE for TRUE, and TRUE for FALSE. ERROR and UNKNOWN are unchanged. Allocates: no.
pub fn not_of(a: Truth) -> Truth
    ensures { result ≡ not_of a }
{
    match a {
        Truth::True => Truth::False,
        Truth::False => Truth::True,
        Truth::Error => Truth::Error,
        Truth::Unknown => Truth::Unknown,
    }
}
