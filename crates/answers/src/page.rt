// The page that output is printed on.
use arrayvec::ArrayVec;

// What is printed stands on the page until it is written out: at most 16,384 bytes.
pub type Page = ArrayVec<u8, 16384>;
