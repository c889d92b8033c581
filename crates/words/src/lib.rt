// Settings words: the 32-bit words that carry settings (01: a sheet). A word's top 4 bits are its kind, the low 28 its data.
#![tactic(auto)]

pub mod decoder;

// 2^28, the weight of a word's kind.
pub const KIND: u32 = 0x10000000;
