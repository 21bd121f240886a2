//! Tests of the crates that read and write logs, which would be proved a second time where they stood
//! in them.
//!
//! - `tests`: a small log with events of all types, written, read, and read with each byte changed
//! - `rows`: rows of events, whether they fit their map, and the changes that they are
//! - `ends`: rows at the ends of what a row can be
//! - `printing`: the lines of events
//! - `cuts`: the groups of the small log, cut at every byte, and with every byte changed
#![tactic(auto, unfolding(event_codec::specs::Writing::size, event_codec::specs::Writing::query_bytes, event_codec::specs::Writing::rotate_bytes, event_codec::specs::Writing::user_var_bytes, event_codec::specs::Writing::format_description_bytes, event_codec::specs::Writing::layout_bytes, event_codec::specs::Writing::names_bytes, event_codec::specs::Writing::table_map_bytes, event_codec::specs::Writing::rows_bytes, event_codec::specs::LogName::log_name, byte_fields::specs::Field::number_bytes, byte_fields::specs::LengthEncoded::lenenc_bytes))]

#[cfg(test)]
mod cuts;
#[cfg(test)]
mod ends;
#[cfg(test)]
mod printing;
#[cfg(test)]
mod rows;
#[cfg(test)]
mod tests;
