ghost use Rattle.std.specs.Prelude.{◌≡◌};
ghost use Rattle.director.specs.Due.{is_due, is_over, is_rested};

use entries::Setup;
use wave::Snapshot;

// Whether a wave is due at a snapshot.
#[tactic(auto, unfolding(crate::specs::Due::is_due))]
pub(crate) fn is_due(setup: &Setup, snap: &Snapshot) -> bool
    ensures { result ≡ is_due setup.now snap.now }
{
    snap.rows.items().len() >= 2
        && setup.starts <= snap.stamp
        && snap.stamp < setup.ends
        && is_rested(setup.wave_ms, snap.last_wave, snap.stamp)
}

// Whether there was no wave yet, or the last one was at least `wave_ms` milliseconds before `t`.
fn is_rested(wave_ms: u64, last: Option<u64>, t: u64) -> bool
    ensures { result ≡ is_rested wave_ms last t }
{
    match last {
        None => true,
        Some(last) => last <= t && wave_ms <= t - last,
    }
}

// Whether the arena is over at a snapshot.
#[tactic(auto, unfolding(crate::specs::Due::is_over))]
pub(crate) fn is_over(setup: &Setup, snap: &Snapshot) -> bool
    ensures { result ≡ is_over setup.now snap.now }
{
    setup.ends <= snap.stamp && snap.running == 0
}
