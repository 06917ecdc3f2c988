//! Lists of bits: one that grows, borrowed ranges of it, a cursor that reads from the front, their
//! hex text, and codes of numbers.
//!
//! Each type is seen as a list of truth values, the first bit first. In memory bits lie in words of
//! 64, the first bit of a word its greatest. A store of many lists in one vector of words has to
//! know this: [`Bits::of_words`] lends some bits of its words, and [`Bits::append_to`] and
//! [`append_hex`] put bits behind them. A clause above such a store speaks of the lists alone.
#![tactic(auto)]

mod bit_buf;
mod bits;
mod bytes;
mod code_name;
mod cursor;
mod delta;
mod gamma;
mod hex_bytes;
mod hex_error;
mod hex_text;
mod hex_words;
pub mod laws;
mod num_code;
mod words;

pub use bit_buf::BitBuf;
pub use bits::Bits;
pub use code_name::CodeName;
pub use cursor::Cursor;
pub use delta::Delta;
pub use gamma::Gamma;
pub use hex_error::HexError;
pub use hex_text::{from_hex, spells_bits};
pub use hex_words::append_hex;
pub use num_code::{MAX_CODE_BITS, MAX_CODED, NumCode};
