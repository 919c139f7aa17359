//! A log write that is to be stopped.
ghost use Rattle.std.specs.Prelude.{◌≡◌, ◌≤◌, IfSome, option_map};
ghost use Rattle.co_disk.specs.Stops.{armed_for};

use co_base::Stop;
use co_disk::Disk;

/// Arms the stop of a log write, where there is one.
pub(crate) fn arm_for(disk: &mut Disk, stop: Option<Stop>)
    requires { IfSome stop (λ s. (1 ≤ s.call) × (s.call ≤ 4)) }
    ensures spot { disk.new.spot ≡ disk.old.spot }
    ensures state { disk.new.state ≡ disk.old.state }
    ensures armed { disk.new.armed ≡ option_map (λ s. armed_for s.call s.leaves) stop }
{
    match stop {
        Some(s) => disk.arm(s.call, s.leaves),
        None => disk.disarm(),
    }
}
