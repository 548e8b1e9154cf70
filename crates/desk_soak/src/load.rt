//! How much a desk is given to do.

ghost use Rattle.std.specs.Prelude.{◌≤◌, IfSome};

/// The most seats, and the most workers, of a desk.
const MOST: usize = 64;

/// How much a desk is given to do.
#[derive(Clone, Copy, Debug)]
pub(crate) struct Load {
    pub(crate) seats: usize,
    pub(crate) workers: usize,
    /// How many commands each seat draws.
    pub(crate) commands: u64,
    /// Where the draws begin.
    pub(crate) seed: u64,
    ghost seats_in_range: { (1 ≤ seats) × (seats ≤ 64) },
    ghost workers_in_range: { (1 ≤ workers) × (workers ≤ 64) },
}

impl Load {
    /// The load of four words, if these are such numbers.
    pub(crate) fn read(words: &[String]) -> Option<Load> {
        let [seats, workers, commands, seed] = words else {
            return None;
        };
        let seats = in_range(seats.parse().ok()?)?;
        let workers = in_range(workers.parse().ok()?)?;
        Some(Load {
            seats,
            workers,
            commands: commands.parse().ok()?,
            seed: seed.parse().ok()?,
        })
    }
}

/// The number, if a desk has so many seats or workers.
fn in_range(count: usize) -> Option<usize>
    ensures { IfSome result (λ count. (1 ≤ count) × (count ≤ 64)) }
{
    if count == 0 || count > MOST {
        return None;
    }
    Some(count)
}
