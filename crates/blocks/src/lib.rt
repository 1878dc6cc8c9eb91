//! Column blocks: up to 1,024 values of one column, and the bytes that they are stored as.
//!
//! *What a contract sees.* A block is its type and the list of its values. Its payload is one list of bytes, and bytes are
//! the payload of one list of so many values at most: what is written is read again, and what is no payload is refused
//! with its first fault from the left. In format 2 a payload begins with a byte that names its encoding: two values or
//! more that are all equal are stored as one of them.
//!
//! *What it stands on.* `values`, and `thiserror` for what a fault shows.
#![tactic(auto)]

mod bits;
mod block;
mod encoding;
mod fault;
mod gathering;
mod ints;
mod laws;
mod payload;
mod reading;
mod spelled;
mod texts;

pub use bits::Bits;
pub use block::{Block, BlockValues};
pub use encoding::{read_block2, write_block2};
pub use fault::BlockFault;
pub use laws::{
    a_payload_is_of_one_list, a_payload_reads_back, an_encoding_is_of_one_list,
    an_encoding_reads_back, what_decodes_is_an_encoding, what_reads_is_a_payload,
};
pub use payload::write_block;
pub use reading::read_block;
pub use texts::Texts;
