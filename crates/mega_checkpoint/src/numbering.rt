//! The bytes of a generation.
ghost use Rattle.std.specs.Prelude.{◌≡◌, IfOk};
ghost use Rattle.byteorder.specs.Endian.{big_bytes};

use byteorder::{BigEndian, ByteOrder};
use mega_areas::zeros;
use mega_base::NoMemory;
use std::alloc::Global;

/// The bytes of a generation.
#[tactic(auto, using(crate::proofs::Fresh::eight_zeros))]
pub(crate) fn generation_bytes(alloc: Global, generation: u64) -> Result<Vec<u8>, NoMemory>
    ensures { IfOk result (λ bytes. bytes.items ≡ big_bytes 8 generation) }
{
    let mut bytes = zeros(alloc, 8)?;
    BigEndian::write_u64(bytes.as_mut_slice(), generation);
    Ok(bytes)
}
