// What the sessions hold between frames.
ghost use Rattle.std.specs.Prelude.{◌≡◌, ◌<◌};
ghost use Rattle.frames_lines.specs.Held.{Memory, count_at, slot_of, FrameRead, RestAt, RestKept};

use crate::{line, rest};

// For each of the 16 sessions a count, and 8,192 bytes, of which the first `count` are held; the others are working space.
#[derive(Drop)]
pub struct Held {
    pub counts: [u64; 16],
    pub bytes: [u8; 131072],
    pub ghost sizes: { Memory counts bytes },
}

// Whose bytes the frame of a session is read behind: sessions above 15 hold nothing.
pub fn slot_of(session: usize) -> usize
    ensures { result ≡ slot_of session }
{
    session.min(15)
}

impl Held {
    // How many bytes a session holds.
    pub fn count_at(&self, slot: usize) -> usize
        requires { slot < 16 }
        ensures { result ≡ count_at self.now.counts slot }
    {
        self.counts[slot].min(4096) as usize
    }

    // Reads a line: its bytes are written behind those that its session holds.
    pub fn read_frame(&mut self, line: &[u8]) -> Option<(usize, usize)>
        ensures same_counts { self.new.counts ≡ self.old.counts }
        ensures frame_read { FrameRead line.now self.old.counts self.old.bytes result self.new.bytes }
    {
        let session = line::read_head(line)?;
        let slot = slot_of(session);
        let at = self.count_at(slot);
        let start = slot * 8192;
        let end = start + 8192;
        line::read_line(line, &mut self.bytes[start..end], at)
    }

    // Keeps the bytes from `from` to `to` of a session's part as its rest; one above 4,096 bytes is dropped.
    pub fn keep(&mut self, session: usize, from: usize, to: usize) -> Option<usize>
        requires { RestAt session from to }
        ensures { RestKept session from to self.old.counts self.old.bytes result self.new.counts self.new.bytes }
    {
        let start = session * 8192;
        let end = start + 8192;
        let kept = rest::keep_rest(&mut self.bytes[start..end], from, to);
        self.counts[session] = kept.unwrap_or(0) as u64;
        kept
    }
}
