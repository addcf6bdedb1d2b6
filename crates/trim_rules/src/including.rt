//! COMPONENTS OF (X.680 25.5).

ghost use Rattle.std.specs.Prelude.{◌≡◌, ◌↔◌, ◌⊎◌, ◌<◌, ◌≤◌, IsTrue, false};

/// Whether COMPONENTS OF can be written out: neither the list that it stands in nor the one that it names is
/// tagged automatically. Of those that are compilers disagree on the tags.
pub fn is_written_out(is_automatic: bool, is_named_automatic: bool) -> bool
    ensures { IsTrue result ↔ ((is_automatic ≡ false) × (is_named_automatic ≡ false)) }
{
    !is_automatic && !is_named_automatic
}

/// The places of what belongs to additions, in a row, among what belongs to a list.
#[derive(Clone, Copy, Debug, PartialEq, Eq)]
pub struct Additions {
    /// That of the first.
    pub start: usize,
    /// That behind the last.
    pub end: usize,
}

impl Additions {
    /// None.
    pub fn new() -> Self
        ensures { result ≡ record { start = 0; end = 0 } }
    {
        Additions { start: 0, end: 0 }
    }

    /// Whether what is at this place belongs to the root, which COMPONENTS OF stands for.
    pub fn has_root_at(self, place: usize) -> bool
        ensures { IsTrue result ↔ ((place < self.start) ⊎ (self.end ≤ place)) }
    {
        place < self.start || place >= self.end
    }
}
