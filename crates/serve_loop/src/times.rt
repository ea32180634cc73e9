//! Which of several times is the earliest.
ghost use Rattle.std.specs.Prelude.{◌≡◌, ◌++◌, ℕ, List, [], ◌∷◌, Option, length};
ghost use Rattle.serve_loop.specs.Earliest.{IsEarliest, IsLeast};

/// The place of the earliest time; none if there is none.
pub fn earliest(times: &[Option<u64>]) -> Option<usize>
    ensures { IsEarliest times.now result }
{
    let mut found: Option<(usize, u64)> = None;
    for k in 0..times.len() {
        found = earlier(found, k, times[k]);
    }
    match found {
        Some((k, _)) => Some(k),
        None => None,
    }
}

/// The earliest of these times, after one more: the one in place `k`.
pub(crate) fn earlier(
    found: Option<(usize, u64)>,
    k: usize,
    time: Option<u64>,
) -> Option<(usize, u64)>
    ensures { (times : List (Option ℕ)) → length times ≡ k → IsLeast times found → IsLeast (times ++ time ∷ []) result }
{
    let Some(time) = time else {
        return found;
    };
    match found {
        None => Some((k, time)),
        Some((at, least)) => {
            if time < least {
                return Some((k, time));
            }
            Some((at, least))
        }
    }
}
