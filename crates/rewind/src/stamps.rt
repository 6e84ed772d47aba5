// The stamps wound back.
ghost use Rattle.std.specs.Prelude.{◌≡◌, map};
ghost use Rattle.rewind.specs.Rewind.{wound_stamp};

// Every stamp above zero becomes 1, every one below zero -1, whether its slot is counted or not.
pub fn wind_stamps(times: &mut [i32])
    ensures { times.new ≡ map wound_stamp times.old }
{
    for t in times.iter_mut() {
        *t = t.signum();
    }
}
