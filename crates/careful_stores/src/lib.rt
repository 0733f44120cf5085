// The stores of a careful change, put into lent bytes.
// Scope: Careful changes (a store is its LBA and a record; the first logical moved to X; zeros at X). Rules: K, V.
// For our crates: `ebr_store`, `push_stores::push_new`, `push_writer::put_push`.
#![tactic(auto)]

pub mod ebr_store;
pub mod push_stores;
pub mod push_writer;

// The bytes of a store: its LBA, and a record.
pub const STORE: usize = 4 + 512;
