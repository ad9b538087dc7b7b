// The replies that hang on no stored value: fixed ones, and the errors that quote a name. A `then_` form
// writes behind what was put.
#![tactic(auto)]

ghost use Rattle.std.specs.Prelude.{◌≡◌};
ghost use Rattle.base_writing.specs.Puts.{Puts, Adds};
ghost use Rattle.resp_spec.specs.Reply.{encode};
ghost use Rattle.command_spec.specs.Command.{unknown_command};
ghost use Rattle.command_spec.specs.Session.{not_queueable};
ghost use Rattle.command_spec.specs.Errors.{fixed_reply, arity_of};

use command_spec::Fixed;
use resp_spec::Letters;

// The text of a fixed reply.
#[tactic(auto, unfolding(resp_spec::specs::Reply::encode, command_spec::specs::Errors::fixed_reply))]
fn text_of(which: Fixed) -> &'static [u8]
    ensures { result.now ≡ encode (fixed_reply which) }
{
    match which {
        Fixed::Ok => b"+OK\r\n",
        Fixed::Queued => b"+QUEUED\r\n",
        Fixed::Pong => b"+PONG\r\n",
        Fixed::NotInteger => b"-ERR value is not an integer or out of range\r\n",
        Fixed::Overflow => b"-ERR increment or decrement would overflow\r\n",
        Fixed::Syntax => b"-ERR syntax error\r\n",
        Fixed::InvalidCursor => b"-ERR invalid cursor\r\n",
        Fixed::BadLimit => b"-ERR LIMIT must be a non-negative integer\r\n",
        Fixed::SetOptions => b"-ERR SET options (EX, NX, ...) are not supported\r\n",
        Fixed::ExecAlone => b"-ERR EXEC without MULTI\r\n",
        Fixed::DiscardAlone => b"-ERR DISCARD without MULTI\r\n",
        Fixed::NestedMulti => b"-ERR MULTI calls can not be nested\r\n",
        Fixed::WatchInside => b"-ERR WATCH inside MULTI is not allowed\r\n",
        Fixed::ExecAbort => b"-EXECABORT Transaction discarded because of previous errors.\r\n",
    }
}

// Writes a fixed reply.
pub fn put_fixed(out: &mut [u8], which: Fixed) -> Option<usize>
    ensures { Puts (encode (fixed_reply which)) out.old result out.new }
{
    base_writing::put_bytes(out, text_of(which))
}

pub fn then_fixed(out: &mut [u8], put: Option<usize>, which: Fixed) -> Option<usize>
    ensures { Adds (encode (fixed_reply which)) put out.old result out.new }
{
    base_writing::then(out, put, |rest| put_fixed(rest, which))
}

// The error for a name that is none.
pub fn put_unknown(out: &mut [u8], word: &[u8]) -> Option<usize>
    ensures { Puts (encode (unknown_command word.now)) out.old result out.new }
{
    let opened = base_writing::put_bytes(out, b"-ERR unknown command '");
    let quoted = resp_sanitize::then_clean_lossy(out, opened, word, Letters::AsSent);
    base_writing::then_bytes(out, quoted, b"'\r\n")
}

// The error for a name that may not be queued, in capitals.
pub fn put_not_queueable(out: &mut [u8], word: &[u8]) -> Option<usize>
    ensures { Puts (encode (not_queueable word.now)) out.old result out.new }
{
    let opened = base_writing::put_bytes(out, b"-ERR '");
    let quoted = resp_sanitize::then_clean_lossy(out, opened, word, Letters::Capitals);
    base_writing::then_bytes(out, quoted, b"' can't be used inside MULTI\r\n")
}

// The error for a wrong argument count of the command `word`, in small letters.
pub fn put_arity(out: &mut [u8], word: &[u8]) -> Option<usize>
    ensures { Puts (encode (arity_of word.now)) out.old result out.new }
{
    let opened = base_writing::put_bytes(out, b"-ERR wrong number of arguments for '");
    let named = resp_sanitize::then_clean(out, opened, word, Letters::Small);
    base_writing::then_bytes(out, named, b"' command\r\n")
}
