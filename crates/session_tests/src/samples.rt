// Sheets, words for their globals, lent memory that holds them as either store has them, and calls and replies in short.
use acceptance::globals::GlobalSort;
use calls::asked::{Call, GlobalCell};
use calls::causes::SessionCause;
use lines::records::Name;
use session::playing::Reply;
use text::refusals::Refusal;

// Simple variable 1 has cell 0, and array 2 the cells 1 to 3.
pub const SHEET: &str = "1,g,1,0,0,0\n2,g,2,3,0,0\n3,x,1,0,0,0\n4,k,0,0,0,0\n5,s,3,4,0,0\n";

// The lines of that sheet.
pub const LINES: usize = 5;

// A sheet with two simple variables, 1 and 2: twice the first becomes the second, one call deeper for each that is counted down.
pub const DOUBLE: &str =
    "1,g,1,0,0,0\n2,g,2,0,0,0\n3,x,3,0,0,0\n4,k,0,0,0,0\n5,=,3,4,0,0\n6,x,4,0,0,0\n7,k,0,0,0,0\n8,s,6,7,0,0\n9,x,3,0,0,0\n10,k,1,0,0,0\n11,-,9,10,0,0\n12,x,4,0,0,0\n13,p,1,11,12,0\n14,x,4,0,0,0\n15,x,4,0,0,0\n16,k,2,0,0,0\n17,+,15,16,0,0\n18,s,14,17,0,0\n19,;,13,18,0,0\n20,i,5,8,19,0\n21,d,1,3,4,20\n22,x,1,0,0,0\n23,x,2,0,0,0\n24,p,1,22,23,0\n25,e,21,24,0,0\n";

// The lines of that sheet.
pub const DOUBLE_LINES: usize = 25;

// The number and the line of a refusal, where there is one.
pub type Told = Option<(u8, usize)>;

// No single: the first word that is infinite.
pub const INFINITE: u32 = 2139095040;

pub const MOST_WORDS: usize = 6;

// The words as a byte image has them.
pub(crate) fn bytes_of(words: &[u32]) -> [u8; 4 * MOST_WORDS] {
    let mut bytes = [0; 4 * MOST_WORDS];
    for (index, word) in words.iter().enumerate().take(MOST_WORDS) {
        bytes[4 * index..4 * index + 4].copy_from_slice(&word.to_le_bytes());
    }
    bytes
}

pub(crate) fn refused(cause: SessionCause) -> Reply {
    Err(Refusal::without_line(cause))
}

pub(crate) fn simple(name: Name, index: u16) -> GlobalCell {
    GlobalCell {
        sort: GlobalSort::Simple,
        name,
        index,
    }
}

pub(crate) fn element(name: Name, index: u16) -> GlobalCell {
    GlobalCell {
        sort: GlobalSort::Array,
        name,
        index,
    }
}

pub(crate) fn post(global: GlobalCell, word: u32) -> Call {
    Call::Post { global, word }
}

pub(crate) fn reading(global: GlobalCell) -> Call {
    Call::Reading { global }
}
