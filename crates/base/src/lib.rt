// The words that every crate shares: how many of each thing there are, and why an operation on the tables is not done.
// How an operation ends, with document 01's numbers, is in specs/Outcome.antt; what a Result says of it, in specs/Answer.antt.
#![tactic(auto)]

ghost use Rattle.std.specs.Prelude.{◌≡◌};
ghost use Rattle.base.specs.declared.Stop.TheVariants.{Corrupt as StopCorrupt};

// How many cells, buckets and entries of the object index there are, and slots in a bucket.
pub const CELL_COUNT: u32 = 256;

pub const BUCKET_COUNT: u32 = 512;

pub const ENTRY_COUNT: usize = 512;

pub const BUCKET_SLOTS: u32 = 4;

// How many updates and queries there are at a time (document 01: lanes), and how many objects may be known.
pub const UPDATER_COUNT: u32 = 8;

pub const QUERY_COUNT: u32 = 4;

pub const MOST_OBJECTS: usize = 256;

// How many hits the list of a query holds.
pub const LIST_SIZE: usize = 256;

// The largest magnitude of a timestamp, and the clock from which on no start is accepted.
pub const LAST_STAMP: u32 = 2147483647;

pub const CLOCK_SPENT: u32 = 2147483600;

// The largest tag of an object (document 02: its load mark).
pub const LAST_TAG: u32 = 9;

// The number of 'no bucket', where a cell or a bucket names the next one. A number and no Option: the tables are fixed
// memory of numbers, without a heap.
pub const NO_BUCKET: u32 = 512;

// A stored number is out of its range, or what has to be there is missing: document 01's broken tables.
#[derive(Clone, Copy, Debug, PartialEq, Eq)]
pub struct Corrupt;

// Why what may have to wait was not done: broken tables, or something that is held.
#[derive(Clone, Copy, Debug, PartialEq, Eq)]
pub enum Stop {
    Corrupt,
    Blocked,
}

impl From<Corrupt> for Stop {
    ghost from_gives = { λ _ s. s ≡ StopCorrupt };

    fn from(_e: Corrupt) -> Stop {
        Stop::Corrupt
    }
}
