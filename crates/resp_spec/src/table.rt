// The lent table of the arguments' parts: argument i has its start in word 2 i and its length in word 2 i + 1.
ghost use Rattle.std.specs.Prelude.{◌≡◌};
ghost use Rattle.resp_spec.specs.Steps.{PlaceIn, with_place};

// Writes the part of argument i.
#[tactic(auto, unfolding(crate::specs::Steps::with_place))]
pub fn put_place(places: &mut [u64], i: usize, start: usize, len: usize)
    requires { PlaceIn places.old i }
    ensures { places.new ≡ with_place i start len places.old }
{
    let at = 2 * i;
    places[at] = start as u64;
    places[at + 1] = len as u64;
}
