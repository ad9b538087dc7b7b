// The lent memory: a store and sixteen sessions.
ghost use Rattle.std.specs.Prelude.{◌≡◌};

// To be read.
#[derive(Clone, Copy)]
pub struct Lent<'a> {
    pub words: &'a [u64],
    pub bytes: &'a [u8],
    pub session_words: &'a [u64],
    pub session_bytes: &'a [u8],
}

// To be written.
#[derive(Drop)]
pub struct LentMut<'a> {
    pub words: &'a mut [u64],
    pub bytes: &'a mut [u8],
    pub session_words: &'a mut [u64],
    pub session_bytes: &'a mut [u8],
}

impl<'a> LentMut<'a> {
    ghost use Rattle.call_numbers.specs.Lending.{lent_read, lent_in};

    // The same memory, to be read.
    pub fn read(&self) -> Lent<'_>
        ensures { lent_read result ≡ lent_in self.now }
    {
        Lent {
            words: self.words,
            bytes: self.bytes,
            session_words: self.session_words,
            session_bytes: self.session_bytes,
        }
    }
}
