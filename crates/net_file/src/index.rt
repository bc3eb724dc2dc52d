ghost use Rattle.std.specs.Prelude.{◌≡◌, ◌<◌, ◌+◌, ◌^◌, IfOk, IfErr};
ghost use Rattle.net_file.specs.declared.refusal.FileRefusal.TheVariants.{OutOfMemory};

use crate::FileRefusal;

/// The index of the thing that comes behind so many. A list that has too many for an index counts
/// as one for which there is no memory: no text of 262,144 octets has such a list.
pub(crate) fn next_index(count: usize) -> Result<u32, FileRefusal>
    ensures ok { IfOk result (λ i. (i ≡ count) × (count + 1 < 2 ^ 32)) }
    ensures err { IfErr result (λ e. e ≡ OutOfMemory) }
{
    if count < u32::MAX as usize {
        Ok(count as u32)
    } else {
        Err(FileRefusal::OutOfMemory)
    }
}
