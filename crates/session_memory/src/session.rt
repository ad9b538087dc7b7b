// A lent session that is valid, to be read.
ghost use Rattle.command_spec.specs.Held.{Held};

// The lent words and bytes of a valid session. Those that are written stay two slices: a `SessionMut` like `StoreMut` was tried, and the
// proof did not close for want of a law that a session with a command or a key more is `Held`.
#[derive(Clone, Copy)]
pub struct Session<'a> {
    pub words: &'a [u64],
    pub bytes: &'a [u8],
    pub ghost held: { Held words.now bytes.now },
}
