// Whether a request is QUIT, which drops the rest of its frame.
ghost use Rattle.std.specs.Prelude.{◌≡◌, ◌≤◌, length};
ghost use Rattle.resp_spec.specs.Request.{spanned};
ghost use Rattle.frames_lines.specs.Quit.{quits_said, quits, first_span};

use command_names::Control;
use resp_spec::Span;

fn is_quit(control: Control) -> bool
    ensures { result ≡ quits_said control }
{
    matches!(control, Control::Quit)
}

// Whether a word names QUIT.
fn names_quit(word: &[u8]) -> bool
    ensures { result ≡ quits word.now }
{
    let row = command_names::look_up(word);
    is_quit(command_names::control_of(row))
}

// Whether the first argument, whose place stands in front of `places`, is QUIT.
pub fn first_quits(input: &[u8], places: &[u64]) -> bool
    requires { 2 ≤ length places.now }
    ensures { result ≡ quits (spanned input.now (first_span places.now)) }
{
    let start = places[0] as usize;
    let len = places[1] as usize;
    names_quit(resp_faults::part_of(input, Span { start, len }))
}
