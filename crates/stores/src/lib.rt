// Stores of words: what a store is, a table of words, and an image in bytes.
#![tactic(auto)]

mod access;
mod byte_image;
mod store;
mod word_table;

pub use access::{Access, Reply, answer, same_answers, serve};
pub use byte_image::ByteImage;
pub use store::{MOST_CELLS, NoSuchCell, Store};
pub use word_table::WordTable;
