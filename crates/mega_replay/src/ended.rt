//! What a call of the program came to.
use mega_disk::Pair;

/// The status with which the program ends, and the devices as a node left them, which are lost only where memory was wanting.
#[derive(Drop)]
pub struct Ended<D> {
    pub status: u8,
    pub devices: Option<Pair<D>>,
}
