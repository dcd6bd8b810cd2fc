//! How often releases came.

ghost use Rattle.std.specs.Prelude.{◌≡◌, map};
ghost use Rattle.counted.specs.Counting.{is_same_release};
ghost use Rattle.counted.specs.Kept.{raised_by, is_kept};

use er_base::Release;

/// How often a release came.
#[derive(Clone, Copy, Debug, PartialEq, Eq)]
pub struct ReleaseCount {
    /// The reason and sub-reason, and who released.
    pub release: Release,
    /// How often it came, at most 2^64 - 1.
    pub count: u64,
}

impl Default for ReleaseCount {
    /// What a place holds in which no release is counted.
    fn default() -> ReleaseCount {
        ReleaseCount {
            release: Release {
                reason: 0,
                sub: 0,
                by_peer: false,
            },
            count: 0,
        }
    }
}

// Whether two are the same.
fn is_same(a: Release, b: Release) -> bool
    ensures { result ≡ is_same_release a b }
{
    a == b
}

// Whether this one is kept.
pub(crate) fn has(kept: &[ReleaseCount], release: Release) -> bool
    ensures { result ≡ is_kept release kept.now }
{
    for known in kept {
        if is_same(known.release, release) {
            return true;
        }
    }
    false
}

// A count, with one more where it is of this release.
fn raised(known: ReleaseCount, release: Release) -> ReleaseCount
    ensures { result ≡ raised_by release known }
{
    if is_same(known.release, release) {
        return ReleaseCount {
            release: known.release,
            count: known.count.saturating_add(1),
        };
    }
    known
}

// One more of this release.
pub(crate) fn raise(kept: &mut [ReleaseCount], release: Release)
    ensures { kept.new ≡ map (raised_by release) kept.old }
{
    for known in kept.iter_mut() {
        *known = raised(*known, release);
    }
}
