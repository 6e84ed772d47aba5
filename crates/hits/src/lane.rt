// The lane of a query by its number: one of four.
ghost use Rattle.std.specs.Prelude.{◌≡◌, ◌<◌, ◌≤◌, IfSome, IfNone};

use base::QUERY_COUNT;

#[derive(Clone, Copy, Debug, PartialEq, Eq)]
pub struct QueryLane {
    pub number: u32,
    pub ghost in_range: { number < 4 },
}

impl QueryLane {
    // None where no lane has the number.
    pub fn new(number: u32) -> Option<Self>
        ensures same { IfSome result (λ l. l.number ≡ number) }
        ensures above { IfNone result (4 ≤ number) }
    {
        if number < QUERY_COUNT {
            return Some(QueryLane { number });
        }
        None
    }
}
