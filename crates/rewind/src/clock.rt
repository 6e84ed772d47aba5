// The clock wound back.
ghost use Rattle.std.specs.Prelude.{◌≡◌};
ghost use Rattle.rewind.specs.Rewind.{wound_clock};

// A clock above 1 becomes 1.
pub fn wind_clock(clock: u32) -> u32
    ensures { result ≡ wound_clock clock }
{
    clock.min(1)
}
