// Which of the ways to answer a request has, by the session and the row of its name.
ghost use Rattle.std.specs.Prelude.{◌≡◌, length, get_or};
ghost use Rattle.command_spec.specs.Names.{control_of};
ghost use Rattle.command_names.specs.Rows.{control_said};
ghost use Rattle.command_spec.specs.Sessions.{yes?};
ghost use Rattle.session_route.specs.Routes.{outside_route, inside_route, route_by};

use command_names::{Control, Row};
use command_spec::Fixed;

// A change of the session's head with its reply, or a reply alone.
#[derive(Clone, Copy)]
pub enum Step {
    Open,
    Unwatch,
    Clear,
    Reply(Fixed),
}

// The requests that the session answers without the store. An enum: `route_of` would have to hand out a closure, which is refused.
#[derive(Clone, Copy)]
pub enum Way {
    Steer(Step),
    Watch,
    Queue,
    NotQueueable,
}

// `Exec` and `Run` need the store.
#[derive(Clone, Copy)]
pub enum Route {
    Here(Way),
    Exec,
    Run,
}

#[tactic(auto, unfolding(crate::specs::Routes::outside_route))]
fn outside(control: Control) -> Route
    ensures { result ≡ outside_route (control_said control) }
{
    match control {
        Control::Multi => Route::Here(Way::Steer(Step::Open)),
        Control::Exec => Route::Here(Way::Steer(Step::Reply(Fixed::ExecAlone))),
        Control::Discard => Route::Here(Way::Steer(Step::Reply(Fixed::DiscardAlone))),
        Control::Watch => Route::Here(Way::Watch),
        Control::Unwatch => Route::Here(Way::Steer(Step::Unwatch)),
        Control::Quit => Route::Here(Way::Steer(Step::Clear)),
        Control::Other => Route::Run,
    }
}

#[tactic(auto, unfolding(crate::specs::Routes::inside_route))]
fn inside(control: Control, queueable: bool) -> Route
    ensures { result ≡ inside_route (control_said control) queueable }
{
    match control {
        Control::Multi => Route::Here(Way::Steer(Step::Reply(Fixed::NestedMulti))),
        Control::Exec => Route::Exec,
        Control::Discard => Route::Here(Way::Steer(Step::Clear)),
        Control::Watch => Route::Here(Way::Steer(Step::Reply(Fixed::WatchInside))),
        Control::Unwatch => Route::Here(Way::NotQueueable),
        Control::Quit => Route::Here(Way::Steer(Step::Clear)),
        Control::Other if queueable => Route::Here(Way::Queue),
        Control::Other => Route::Here(Way::NotQueueable),
    }
}

// The route of a request, by the session's words and the row of its name.
pub fn route_of(words: &[u64], row: Row) -> Route
    requires { length words.now ≡ 644 }
    ensures { result ≡ route_by (yes? (get_or words.now 0 0)) (control_of row.name) row.queueable }
{
    let control = command_names::control_of(row);
    if session_flags::in_multi(words) {
        return inside(control, row.queueable);
    }
    outside(control)
}
