//! Whole records: a header, an entry block and a footer that is signed for one file, read and written.
#![tactic(auto)]

pub mod footer;
pub mod front;
pub mod header;
pub mod laws;
pub mod log_item_batch;
pub mod marking;
pub mod marks_laws;
pub mod record;
pub mod status;

pub use footer::{decode_footer, decode_placed_footer};
pub use front::{decode_frame, decode_record};
pub use header::{LOG_BATCH_HEADER_LEN, decode_entries_block, decode_header};
pub use log_item_batch::{LogItemBatch, items_size};
pub use marking::{MARK_GROUP, MARK_KEY, Marking, mark_value};
pub use status::AtomicGroupStatus;
