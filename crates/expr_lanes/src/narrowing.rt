// Selections that are narrowed by a test.
ghost use Rattle.std.specs.Prelude.{◌≡◌, ◌<◌, ◌≤◌, ℕ, Bool, nat_lt, not, length, take};
ghost use Rattle.std.specs.List.{filter};
ghost use Rattle.rdf_model.specs.{is_set};
ghost use Rattle.expr_lanes.specs.Places.{at_place, is_marked, EachPlace};

/// A test of places.
pub(crate) trait PlaceTest {
    ghost can: { Self → ℕ → Type 0 };

    ghost passes: { Self → ℕ → Bool };

    fn passes_at(&self, place: u32) -> bool
        requires { can self.now place }
        ensures { result ≡ passes self.now place };
}

/// The places that are not marked.
#[derive(Drop)]
pub(crate) struct Unmarked<'a>(pub(crate) &'a [bool]);

impl<'a> PlaceTest for Unmarked<'a> {
    ghost can = { λ t p. p < length t.0.now };

    ghost passes = { λ t p. not (is_marked t.0.now p) };

    #[inline(always)]
    fn passes_at(&self, place: u32) -> bool {
        !self.0[place as usize]
    }
}

/// The places at which a lane holds another number than 0.
#[derive(Drop)]
pub(crate) struct Set<'a>(pub(crate) &'a [i64]);

impl<'a> PlaceTest for Set<'a> {
    ghost can = { λ t p. p < length t.0.now };

    ghost passes = { λ t p. is_set (at_place t.0.now p) };

    #[inline(always)]
    fn passes_at(&self, place: u32) -> bool {
        self.0[place as usize] != 0
    }
}

/// The places below a limit.
#[derive(Drop)]
pub(crate) struct Below(pub(crate) u32);

impl PlaceTest for Below {
    ghost can = { λ t p. Unit {0} };

    ghost passes = { λ t p. nat_lt p t.0 };

    #[inline(always)]
    fn passes_at(&self, place: u32) -> bool {
        place < self.0
    }
}

/// Moves the places that pass the test to the front, and answers how many they are.
pub(crate) fn keep_places<T: PlaceTest>(places: &mut [u32], count: usize, test: &T) -> usize
    requires count { count ≤ length places.old }
    requires can { EachPlace (take count places.old) (T.can test.now) }
    ensures within { result ≤ count }
    ensures kept { take result places.new ≡ filter (T.passes test.now) (take count places.old) }
{
    let mut kept = 0;
    for i in 0..count {
        let place = places[i];
        if test.passes_at(place) {
            places[kept] = place;
            kept += 1;
        }
    }
    kept
}
