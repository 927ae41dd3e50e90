// Which processes live.
ghost use Rattle.std.specs.Prelude.{◌≡◌, ◌≤◌, ◌-◌, ◌++◌, true, false, replicate};
ghost use Rattle.std.specs.Prelude.{slice_get, unwrap_or};
ghost use Rattle.def_term.specs.Alive.{is_alive, with_alive, living_count};
ghost use Rattle.tn_term.specs.Views.{alive_of};

/// The first pid that a run gives.
pub const FIRST_PID: u32 = 100;

/// How many processes a run may start.
pub const PROCESSES: usize = 64;

/// Which of the pids 100 to 163 live.
#[derive(Clone, Copy)]
pub struct Alive {
    slots: [bool; 64],
}

impl Alive {
    /// The processes of the first pids from 100 on live, as many as there are.
    pub fn first(count: usize) -> Alive
        requires { count ≤ 64 }
        ensures { alive_of result ≡ replicate count true ++ replicate (64 - count) false }
    {
        let mut alive = Alive::none();
        for place in 0..count {
            alive.slots[place] = true;
        }
        alive
    }

    /// No process lives.
    pub fn none() -> Alive
        ensures { alive_of result ≡ replicate 64 false }
    {
        Alive { slots: [false; 64] }
    }

    /// Whether the process with this pid lives; never one outside 100 to 163.
    pub fn has(&self, pid: u32) -> bool
        ensures { result ≡ is_alive (alive_of self.now) pid }
    {
        if pid < FIRST_PID {
            return false;
        }
        let place = (pid - FIRST_PID) as usize;
        place < self.slots.len() && self.slots[place]
    }

    /// Whether the process at this place lives; the place of pid 100 is 0.
    pub fn has_place(&self, place: usize) -> bool
        ensures { result ≡ unwrap_or (slice_get (alive_of self.now) place) false }
    {
        match self.slots.get(place) {
            Some(lives) => *lives,
            None => false,
        }
    }

    /// The process with this pid lives from now on. A pid outside 100 to 163 changes nothing.
    pub fn add(&mut self, pid: u32)
        ensures { alive_of self.new ≡ with_alive (alive_of self.old) pid true }
    {
        self.put(pid, true);
    }

    /// The process with this pid lives no longer. A pid outside 100 to 163 changes nothing.
    pub fn remove(&mut self, pid: u32)
        ensures { alive_of self.new ≡ with_alive (alive_of self.old) pid false }
    {
        self.put(pid, false);
    }

    /// How many processes live.
    pub fn count(&self) -> u8
        ensures { result ≡ living_count (alive_of self.now) }
    {
        let living = self.slots.iter().filter(|lives| **lives).count();
        living as u8
    }

    /// Whether the process with this pid lives from now on. A pid outside 100 to 163 changes nothing.
    fn put(&mut self, pid: u32, lives: bool)
        ensures { alive_of self.new ≡ with_alive (alive_of self.old) pid lives }
    {
        if pid < FIRST_PID {
            return;
        }
        let place = (pid - FIRST_PID) as usize;
        if place < self.slots.len() {
            self.slots[place] = lives;
        }
    }
}
