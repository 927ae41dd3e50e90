// When the turns of workers begin.
ghost use Rattle.std.specs.Prelude.{◌≡◌};
ghost use Rattle.tn_command.specs.Delays.{delay_of};

use std::sync::atomic::{AtomicU64, Ordering};
use std::thread::yield_now;
use tn_pool::Gate;
use tn_random_run::{number_of, seed_after};

/// How often a worker gives way to the others before its first turn, at most.
const PATIENCE: u32 = 4096;

/// A gate at which each worker's first turn waits until every worker has come to one, so that they all run before the
/// first step is taken. A worker that finds no process to run never comes, so the others wait for a while only. With a
/// seed each turn gives way to the others some times, which differ from turn to turn, so that a small script shows how
/// its processes race.
#[derive(Drop)]
pub struct Start {
    count: u32,
    seed: Option<u64>,
    /// A bit for each worker that has come to its first turn.
    begun: AtomicU64,
    turns: AtomicU64,
}

impl Start {
    /// The gate of so many workers, of which none has begun.
    pub fn new(count: u32, seed: Option<u64>) -> Start {
        Start {
            count,
            seed,
            begun: AtomicU64::new(0),
            turns: AtomicU64::new(0),
        }
    }

    /// Waits until every worker has begun, or for a while.
    fn wait_for_all(&self) {
        for _ in 0..PATIENCE {
            if self.begun.load(Ordering::SeqCst).count_ones() >= self.count {
                return;
            }
            yield_now();
        }
    }

    /// How often the turn of this number gives way.
    fn delay(seed: u64, turn: u64) -> u64
        ensures { result ≡ delay_of seed turn }
    {
        number_of(seed_after(seed.wrapping_add(turn))) % 16
    }

    /// Gives way as the seed says.
    fn give_way(&self) {
        let Some(seed) = self.seed else {
            return;
        };
        let turn = self.turns.fetch_add(1, Ordering::SeqCst);
        for _ in 0..Start::delay(seed, turn) {
            yield_now();
        }
    }
}

impl Gate for Start {
    fn before_turn(&self, worker: u32) {
        let bit = 1u64 << (worker % 64);
        if self.begun.load(Ordering::SeqCst) & bit == 0 {
            self.begun.fetch_add(bit, Ordering::SeqCst);
            self.wait_for_all();
        }
        self.give_way();
    }

    fn after_turn(&self, _worker: u32) {}
}
