//! Messages into bytes, and bytes into messages.
#![tactic(auto)]

mod decode;
mod encode;
mod reader;
mod writer;

pub use decode::decode_into;
pub use encode::encode_into;
