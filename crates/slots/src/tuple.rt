// Tuples: read, copied and written whole.
ghost use Rattle.std.specs.Prelude.{◌≡◌, ◌<◌, List, ℤ, length};
ghost use Rattle.base.specs.Answer.{outcome_of};
ghost use Rattle.base.specs.Outcome.{done};
ghost use Rattle.base.specs.Promise.{Changes};
ghost use Rattle.slots.specs.Tuple.{tuples_at, put_words, slot_at, need_slot, copy, overwrite, delete, read, seen_as, seen_by, sign, tuple_in};
ghost use Rattle.words.specs.Map.{TUPLES-SIZE};

use crate::stamp::{Stamp, current_stamp, deleted_stamp, in_range, read_stamp};
use base::{BUCKET_COUNT, BUCKET_SLOTS, Corrupt};
use words::{TIMES, TUPLE_TAGS, TUPLE_XS, TUPLE_YS};

// What is reported of an object: where it stands, and its tag, the object's load mark (document 02).
#[derive(Clone, Copy, Debug, PartialEq, Eq)]
pub struct Report {
    pub oid: u32,
    pub x: u32,
    pub y: u32,
    pub tag: u32,
}

// A tuple with its stamp taken apart into sign and magnitude. The tag is the one that was reported with the place.
// The flag is the stamp's sign; it says nothing of whether a tuple is there, so no Option fits.
#[derive(Clone, Copy, Debug, PartialEq, Eq)]
pub struct Seen {
    pub oid: u32,
    pub x: u32,
    pub y: u32,
    pub tag: u32,
    pub deleted: bool,
    pub time: u32,
}

// Where the tuple at a slot of a bucket stands in each column. A bucket and a slot stay two numbers, as in a place:
// a struct of the two would be built at each call only to be taken apart here.
fn slot_index(bucket: u32, slot: u32) -> Result<usize, Corrupt>
    ensures { outcome_of result ≡ need_slot bucket slot (done (slot_at bucket slot)) }
{
    if bucket >= BUCKET_COUNT || slot >= BUCKET_SLOTS {
        return Err(Corrupt);
    }
    Ok((BUCKET_SLOTS * bucket + slot) as usize)
}

// The tuple at an entry, with a stamp of this sign and magnitude.
fn seen_at(tuples: &[u32], at: usize, deleted: bool, time: u32) -> Seen
    requires { (length tuples.now ≡ TUPLES-SIZE) × (at < 2048) }
    ensures { (ts : List ℤ) → result ≡ seen_as (tuple_in (tuples_at tuples.now ts) at) deleted time }
{
    Seen {
        oid: tuples[at],
        x: tuples[TUPLE_XS + at],
        y: tuples[TUPLE_YS + at],
        tag: tuples[TUPLE_TAGS + at],
        deleted,
        time,
    }
}

// Reads the tuple at a slot. Objects, x, y and tags stand one after the other in one list, a column each.
pub fn read_tuple(
    tuples: &[u32],
    times: &[i32; TIMES],
    bucket: u32,
    slot: u32,
) -> Result<Seen, Corrupt>
    requires { length tuples.now ≡ TUPLES-SIZE }
    ensures { outcome_of result ≡ read (tuples_at tuples.now times.now) bucket slot }
{
    let i = slot_index(bucket, slot)?;
    match read_stamp(times[i]) {
        Stamp::Never => Err(Corrupt),
        Stamp::Current(time) => Ok(seen_at(tuples, i, false, time)),
        Stamp::Deleted(time) => Ok(seen_at(tuples, i, true, time)),
    }
}

// Writes what is reported over object, x, y and tag at an entry.
fn put_tuple(tuples: &mut [u32], at: usize, r: Report)
    requires { (length tuples.old ≡ TUPLES-SIZE) × (at < 2048) }
    ensures { (ts : List ℤ) → put_words (tuples_at tuples.old ts) at r.oid r.x r.y r.tag ≡ tuples_at tuples.new ts }
{
    tuples[at] = r.oid;
    tuples[TUPLE_XS + at] = r.x;
    tuples[TUPLE_YS + at] = r.y;
    tuples[TUPLE_TAGS + at] = r.tag;
}

// Copies a tuple over another.
pub fn copy_tuple(
    tuples: &mut [u32],
    times: &mut [i32; TIMES],
    bucket: u32,
    slot: u32,
    bucket2: u32,
    slot2: u32,
) -> Result<(), Corrupt>
    requires { length tuples.old ≡ TUPLES-SIZE }
    ensures { Changes (tuples_at tuples.old times.old) (λ d. copy d bucket slot bucket2 slot2) result (tuples_at tuples.new times.new) }
{
    let from = slot_index(bucket, slot)?;
    let to = slot_index(bucket2, slot2)?;
    let tuple = Report {
        oid: tuples[from],
        x: tuples[TUPLE_XS + from],
        y: tuples[TUPLE_YS + from],
        tag: tuples[TUPLE_TAGS + from],
    };
    put_tuple(tuples, to, tuple);
    times[to] = times[from];
    Ok(())
}

// Writes a current tuple over the one at a slot.
pub fn overwrite_tuple(
    tuples: &mut [u32],
    times: &mut [i32; TIMES],
    bucket: u32,
    slot: u32,
    r: Report,
    time: u32,
) -> Result<(), Corrupt>
    requires { length tuples.old ≡ TUPLES-SIZE }
    ensures { Changes (tuples_at tuples.old times.old) (λ d. overwrite d bucket slot r.oid r.x r.y r.tag time) result (tuples_at tuples.new times.new) }
{
    let i = slot_index(bucket, slot)?;
    if !in_range(time) {
        return Err(Corrupt);
    }
    put_tuple(tuples, i, r);
    times[i] = current_stamp(time);
    Ok(())
}

// Logically deletes a tuple: its stamp becomes the negative of the one given.
pub fn delete_tuple(
    times: &mut [i32; TIMES],
    bucket: u32,
    slot: u32,
    time: u32,
) -> Result<(), Corrupt>
    ensures { Changes times.old (λ l. delete l bucket slot time) result times.new }
{
    let i = slot_index(bucket, slot)?;
    if !in_range(time) {
        return Err(Corrupt);
    }
    times[i] = deleted_stamp(time);
    Ok(())
}

// Whether a query that drew the stamp since may list a tuple: it is current, or its stamp's magnitude is above.
pub fn is_seen(t: Seen, since: u32) -> bool
    ensures { result ≡ seen_by since t }
{
    !t.deleted || t.time > since
}

// Whether the tuple at a slot is deleted, by its stamp's sign.
pub fn read_sign(times: &[i32; TIMES], bucket: u32, slot: u32) -> Result<bool, Corrupt>
    ensures { outcome_of result ≡ sign times.now bucket slot }
{
    let i = slot_index(bucket, slot)?;
    match read_stamp(times[i]) {
        Stamp::Never => Err(Corrupt),
        Stamp::Current(_) => Ok(false),
        Stamp::Deleted(_) => Ok(true),
    }
}
