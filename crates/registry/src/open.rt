// Opening a store in lent memory.
ghost use Rattle.command_spec.specs.Numbers.{number_of};
ghost use Rattle.call_spec.specs.Calls.{OpenPromise};

use command_spec::CallError;

// Opens an empty store with this last sequence and these capacities, if the buffers hold them. It has no bytes, so those stay.
pub fn open(
    words: &mut [u64],
    bytes: &[u8],
    last: u64,
    versions: usize,
    size: usize,
) -> Result<(), CallError>
    ensures { OpenPromise last versions size words.old bytes.now (number_of result) words.new bytes.now }
{
    if store_commit::open::open(words, bytes, last, versions, size) {
        Ok(())
    } else {
        Err(CallError::MemoryUnfit)
    }
}
