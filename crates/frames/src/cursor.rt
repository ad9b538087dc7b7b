// Where the program stands in its input and its output.
ghost use Rattle.frames.specs.Bounds.{Within};

// The line at hand in the part, the bytes of the part that are read, those of the page in use, and how many reads are left.
#[derive(Clone, Copy)]
pub struct Cursor {
    pub from: usize,
    pub end: usize,
    pub got: usize,
    pub filled: usize,
    pub reads: u64,
    pub ghost within: { Within from end got filled },
}
