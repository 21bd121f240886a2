//! Numbers in bytes, least byte first, and all things that stand one after the other.
//!
//! Log events and stored records are made of fields of one, two, four, six or eight bytes and of
//! length-encoded integers. This crate takes them from bytes and gives the bytes that they are; it
//! stands on `byteorder`, and everything that reads or writes a log or a store stands on it.
//!
//! - `taking`: [`take_u8`] to [`take_u64`] and [`take_lenenc`], with the place behind what was taken;
//!   [`u16_at`] to [`u64_at`] where enough bytes are known to stand
//! - `giving`: [`bytes_u8`] to [`bytes_u64`] and [`bytes_lenenc`]
//! - `refusal`: [`Short`] and [`LenRefusal`]
//! - `laws`: what is written is read again
//! - `specs/Unroll`: the list of all that stands one after the other, by the reading of one, with its
//!   laws in `proofs/Unrolling`; definitions of events and rows are made by it
//!
//! # Proved
//! - Each field is taken exactly where enough bytes stand, with the place behind it, and is `Short`
//!   with the number of bytes that it needs where fewer stand; a length-encoded integer is `Bad`
//!   exactly where its first byte is 251 or 255. One that is spelled longer than it has to be is taken.
//! - The bytes that are given are those of the number, a length-encoded integer's its shortest spelling.
//! - What is written is read again whatever follows it ([`fields_are_read_again`],
//!   [`lenencs_are_read_again`]); a field has its width ([`fields_have_their_width`]).
//! - All that stands one after the other is the first and all behind it, where each takes some of the
//!   bytes (`all_some` and `all_none` of `proofs/Unrolling`, lemmas that proofs above cite, since they
//!   are about things of every type).
#![tactic(auto)]

mod giving;
mod laws;
mod refusal;
mod taking;

pub use giving::{bytes_lenenc, bytes_u8, bytes_u16, bytes_u32, bytes_u48, bytes_u64};
pub use laws::{fields_are_read_again, fields_have_their_width, lenencs_are_read_again};
pub use refusal::{LenRefusal, Short};
pub use taking::{
    take_lenenc, take_u8, take_u16, take_u32, take_u48, take_u64, u16_at, u32_at, u48_at, u64_at,
};
