// Is a lent store valid by the layout?
pub use store_memtable::valid::{buffers_hold, validate};
