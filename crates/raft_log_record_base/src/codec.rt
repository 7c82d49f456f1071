//! Numbers as bytes.

mod append;
mod decode;
mod encode;
mod error;
mod signed;
mod variable;

pub use append::{append_u32_le, append_u64, append_var_u64, or_cut_back};
pub use decode::{
    decode_i32_le, decode_i64, decode_i64_desc, decode_i64_le, decode_u16, decode_u16_le,
    decode_u32, decode_u32_le, decode_u64, decode_u64_desc, decode_u64_le, read_u8,
};
pub use encode::NumberEncoder;
pub use error::{BytesSlice, Error, Result};
pub use variable::{MAX_VAR_U64_LEN, decode_var_i64, decode_var_u64};
