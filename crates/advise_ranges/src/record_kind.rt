// What a record does or asks for.
ghost use Rattle.std.specs.Prelude.{◌≡◌};
ghost use Rattle.advise_ranges.specs.Reading.{advice_word, advice_kind_of};

/// The kind of a record, which its member `do` says.
#[derive(Clone, Copy)]
pub(crate) enum AdviceKind {
    Item,
    DropItem,
    Advisory,
    DropAdvisory,
    Affected,
    Advisories,
}

impl AdviceKind {
    fn word(self) -> &'static str
        ensures { result.now ≡ advice_word self }
    {
        match self {
            AdviceKind::Item => "item",
            AdviceKind::DropItem => "drop-item",
            AdviceKind::Advisory => "advisory",
            AdviceKind::DropAdvisory => "drop-advisory",
            AdviceKind::Affected => "affected",
            AdviceKind::Advisories => "advisories",
        }
    }
}

/// The kind of this word. There is none exactly if no kind has this word. Allocates: no.
pub(crate) fn record_kind_of(text: &str) -> Option<AdviceKind>
    ensures { result ≡ advice_kind_of text.now }
{
    let kinds = [
        AdviceKind::Item,
        AdviceKind::DropItem,
        AdviceKind::Advisory,
        AdviceKind::DropAdvisory,
        AdviceKind::Affected,
        AdviceKind::Advisories,
    ];
    kinds.iter().copied().find(|kind| kind.word() == text)
}
