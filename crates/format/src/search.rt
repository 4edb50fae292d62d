//! Finds of searches.
ghost use Rattle.std.specs.Prelude.{◌≡◌};
ghost use Rattle.rules.specs.Searches.{earlier as earlier_of};

// The earlier of two finds.
pub(crate) fn earlier(a: Option<u16>, b: Option<u16>) -> Option<u16>
    ensures { result ≡ earlier_of a b }
{
    match (a, b) {
        (Some(x), Some(y)) => Some(x.min(y)),
        (Some(x), None) => Some(x),
        (None, found) => found,
    }
}
