// A request: its arguments as parts of lent bytes, its name first.
ghost use Rattle.std.specs.Prelude.{◌≡◌, ◌<◌};
ghost use Rattle.command_spec.specs.Command.{argument};
ghost use Rattle.command_spec.specs.Places.{PartsIn};

use group_spec::parts::Parts;

// The first `count` parts of `input` that `places` names. An argument lasts as long as `input`.
#[derive(Clone, Copy)]
pub struct Request<'i, 'p> {
    pub input: &'i [u8],
    pub places: &'p [u64],
    pub count: usize,
    pub ghost parts_in: { PartsIn places.now input.now count },
}

impl<'i, 'p> Request<'i, 'p> {
    ghost use Rattle.command_spec.specs.Requests.{arguments_of};

    // Argument k.
    pub fn argument(&self, k: usize) -> &'i [u8]
        requires { k < self.now.count }
        ensures { result.now ≡ argument k (arguments_of self.now) }
    {
        let parts = Parts {
            table: self.places,
            data: self.input,
        };
        parts.key(2 * k)
    }
}
