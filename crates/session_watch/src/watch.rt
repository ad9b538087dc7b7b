// The watched keys in working memory.
ghost use Rattle.std.specs.Prelude.{◌≡◌, ◌≤◌};
ghost use Rattle.command_spec.specs.Lent.{OneSession};
ghost use Rattle.command_spec.specs.Requests.{arguments_of};
ghost use Rattle.command_spec.specs.Names.{arguments};
ghost use Rattle.command_spec.specs.Session.{add_key, add_keys};
ghost use Rattle.command_spec.specs.Watch.{WatchTable, WatchPut};

use command_spec::request::Request;
use session_memory::session::Session;
use session_memory::{COUNTS, KEY_LENGTHS, KEY_SEQUENCES, MOST_KEY_BYTES, MOST_WATCHED, WATCHED};

// The first `count` lengths, sequences and keys, whose bytes are the first `used`: fixed tables as in the session, for there is no heap.
#[derive(Drop)]
pub struct Watch {
    pub lens: [u64; 32],
    pub seqs: [u64; 32],
    pub text: [u8; 2048],
    pub count: usize,
    pub used: usize,
    pub ghost table: { WatchTable lens seqs text count used },
}

impl Watch {
    ghost use Rattle.session_watch.specs.Grown.{watch_in, Copied, Grown};

    // A copy of a session's watched keys.
    pub fn of(session: &Session) -> Watch
        ensures { Copied session.now result }
    {
        let words = session.words;
        let count = session_memory::word(words, WATCHED);
        let mut watch = Watch {
            lens: [0; MOST_WATCHED],
            seqs: [0; MOST_WATCHED],
            text: [0; MOST_KEY_BYTES],
            count: 0,
            used: 0,
        };
        watch
            .lens
            .copy_from_slice(&words[KEY_LENGTHS..KEY_SEQUENCES]);
        watch.seqs.copy_from_slice(&words[KEY_SEQUENCES..COUNTS]);
        watch
            .text
            .copy_from_slice(&session.bytes[0..MOST_KEY_BYTES]);
        watch.count = count;
        watch.used = session_memory::sum_within(words, KEY_LENGTHS, count, MOST_KEY_BYTES);
        watch
    }

    // Adds a key with the sequence `last` in its place, unless it is there; None if there is no room for it.
    fn add(&mut self, name: &[u8], last: u64) -> Option<()>
        ensures { Grown (add_key last name.now (watch_in self.old)) self.old self.new result }
    {
        let Some((i, start)) = crate::find_spot(&self.lens, &self.text, self.count, name) else {
            return Some(());
        };
        let len = name.len();
        if MOST_WATCHED <= self.count || MOST_KEY_BYTES - self.used < len {
            return None;
        }
        crate::insert_word(&mut self.lens, i, self.count, len as u64);
        crate::insert_word(&mut self.seqs, i, self.count, last);
        crate::insert_bytes(&mut self.text, start, self.used, name);
        self.count += 1;
        self.used += len;
        Some(())
    }

    // Adds the arguments of WATCH, each in its place; None if there is no room for them all.
    pub fn add_keys(&mut self, request: &Request, last: u64) -> Option<()>
        requires { 1 ≤ request.now.count }
        ensures { Grown (add_keys last (arguments (arguments_of request.now)) (watch_in self.old)) self.old self.new result }
    {
        for i in 1..request.count {
            self.add(request.argument(i), last)?;
        }
        Some(())
    }

    // Puts the keys in their places in the session.
    pub fn keep(&self, words: &mut [u64], bytes: &mut [u8])
        requires { OneSession words.old bytes.old }
        ensures { WatchPut self.now.lens self.now.seqs self.now.text self.now.count words.old words.new bytes.old bytes.new }
    {
        crate::keep(words, bytes, &self.lens, &self.seqs, &self.text, self.count);
    }
}
