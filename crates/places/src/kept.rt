// A ring that a thread keeps, and a place.
ghost use Rattle.std.specs.Prelude.{◌≡◌};
ghost use Rattle.places.specs.Places.{builds_in, both_build, keeps_in};

use keeps::Kept;

// A ring is being built in this place.
pub(crate) fn builds_in(kept: Kept, place: usize) -> bool
    ensures { result ≡ builds_in kept place }
{
    matches!(kept, Kept::Built(ring) if ring.place.0 == place)
}

// Two rings are being built in one place.
pub(crate) fn both_build(kept: Kept, other: Kept) -> bool
    ensures { result ≡ both_build kept other }
{
    matches!(kept, Kept::Built(ring) if builds_in(other, ring.place.0))
}

// A ring is built or held in this place.
pub(crate) fn keeps_in(kept: Kept, place: usize) -> bool
    ensures { result ≡ keeps_in kept place }
{
    matches!(kept, Kept::Built(ring) | Kept::Held(ring) if ring.place.0 == place)
}
