// A request with the row of its name.
ghost use Rattle.std.specs.Prelude.{◌≡◌, ◌≤◌};
ghost use Rattle.command_spec.specs.Names.{name_word};
ghost use Rattle.command_spec.specs.Requests.{arguments_of};
ghost use Rattle.command_names.specs.Rows.{Looked};

use crate::Row;
use command_spec::request::Request;

// A request that is not empty, and the row of its name, argument 0.
#[derive(Clone, Copy)]
pub struct NamedRequest<'i, 'p> {
    pub request: Request<'i, 'p>,
    pub row: Row,
    pub ghost not_empty: { 1 ≤ request.count },
    pub ghost looked: { Looked (name_word (arguments_of request)) row },
}

impl<'i, 'p> NamedRequest<'i, 'p> {
    // Looks the name up.
    pub fn new(request: Request<'i, 'p>) -> NamedRequest<'i, 'p>
        requires { 1 ≤ request.count }
        ensures { result.request ≡ request.entry }
    {
        let row = crate::look_up(request.argument(0));
        NamedRequest { request, row }
    }

    // The name as it was sent.
    pub fn name(&self) -> &'i [u8]
        ensures { result.now ≡ name_word (arguments_of self.now.request) }
    {
        self.request.argument(0)
    }
}
