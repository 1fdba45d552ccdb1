// Records and look-ups.
pub mod address_state;
pub mod buffer;
pub mod call_record;
pub mod continuation;
pub mod decoder_row;
pub mod forest;
pub mod ids;
pub mod profile;
pub mod row;
pub mod state;
