// The map of the words: where each table begins in the one slice of numbers that a caller lends.
// A table ends where the next one begins; the pool ends with the slice. The same numbers stand in specs/Map.antt, and
// nowhere else.
// Columns, numbers of buckets, and numbers that stand for none, in place of structs, boxes and Options: the memory is lent
// by the caller and fixed, and there is no heap.
// The words and the stamps are lent apart, as two parameters: some calls only read the one.
#![tactic(auto)]

// The lock of each cell, and its first bucket.
pub const CELLS: usize = 0;

pub const FIRST: usize = 256;

// The count, the next bucket and the readers of each bucket.
pub const COUNT: usize = 512;

pub const NEXT: usize = 1024;

pub const READERS: usize = 1536;

// The tuples but for their stamps: a column for the objects, one for x, one for y, one for the tags.
pub const TUPLES: usize = 2048;

pub const TUPLE_XS: usize = 2048;

pub const TUPLE_YS: usize = 4096;

pub const TUPLE_TAGS: usize = 6144;

// The object index: a column for the objects, one for their locks, one for current and one for previous places.
pub const INDEX: usize = 10240;

pub const INDEX_LOCKS: usize = 512;

pub const INDEX_CURRENT: usize = 1024;

pub const INDEX_PREVIOUS: usize = 1536;

pub const INDEX_SIZE: usize = 2048;

// The hits of the queries: a column for the objects, one for x, one for y, one for the tags.
pub const HITS: usize = 12288;

pub const HIT_XS: usize = 1024;

pub const HIT_YS: usize = 2048;

pub const HIT_TAGS: usize = 3072;

pub const CLOCK: usize = 16384;

// The bucket pool.
pub const POOL: usize = 16385;

// How many words there are, and how many stamps in the slice beside them.
pub const WORDS: usize = 16898;

pub const TIMES: usize = 2048;

// In the words: the columns of the index.
pub const LOCKS: usize = INDEX + INDEX_LOCKS;

pub const CURRENT: usize = INDEX + INDEX_CURRENT;

pub const PREVIOUS: usize = INDEX + INDEX_PREVIOUS;
