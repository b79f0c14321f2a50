// Elements with tickets, and their changes.
ghost use Rattle.std.specs.Prelude.{◌≡◌, ℕ};

/// An element that has a ticket.
pub trait Ticketed {
    /// The number by which the element is found.
    ghost ticket_of: { Self → ℕ };

    /// The element's ticket.
    fn ticket(&self) -> u64
        ensures { result ≡ ticket_of self.now };
}

impl Ticketed for u64 {
    ghost ticket_of = { λ t. t };

    fn ticket(&self) -> u64 {
        *self
    }
}

/// A change of an element.
pub trait Change<T> {
    /// The element after the change.
    ghost changed: { Self → T → T };

    /// Changes an element.
    fn change(&self, element: &mut T)
        ensures { element.new ≡ changed self.now element.old };
}
