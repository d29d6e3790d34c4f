// The places of a block that are fed.
ghost use Rattle.std.specs.Prelude.{◌≡◌, ◌<◌, ◌≤◌, length, slice_index_or};
ghost use Rattle.actions.specs.{places_of};

/// Places of a block in their order: the first so many, or those that are listed.
#[derive(Clone, Copy, Debug)]
pub enum Places<'a> {
    First(u32),
    Listed(&'a [u32]),
}

impl Places<'_> {
    /// How many there are.
    #[tactic(auto, using(crate::proofs::Batching::first_places))]
    pub fn len(&self) -> u32
        requires { length (places_of self.now) ≤ 1000000 }
        ensures { result ≡ length (places_of self.now) }
    {
        match self {
            Places::First(count) => *count,
            Places::Listed(places) => places.len() as u32,
        }
    }

    /// The one of a number, counted from 0.
    #[tactic(auto, using(crate::proofs::Batching::first_places))]
    pub fn at(&self, i: u32) -> u32
        requires { i < length (places_of self.now) }
        ensures { slice_index_or (places_of self.now) i 0 ≡ result }
    {
        match self {
            Places::First(_) => i,
            Places::Listed(places) => places[i as usize],
        }
    }
}
