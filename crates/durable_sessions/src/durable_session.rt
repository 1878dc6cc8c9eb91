//! A durable session: a session, and the watermark that it has read.
use crate::opening_id::DurableOpening;
use shared::Session;
use watermark::WatermarkReader;

/// A client's session, with its reader of the watermark. It begins, reads and writes without a lock. The commits up to the number that the
/// reader has are durable.
#[derive(Drop)]
pub struct DurableSession<O: DurableOpening> {
    pub session: Session<O>,
    pub reader: WatermarkReader<O>,
}
