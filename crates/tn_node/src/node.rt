// The node and its picks.
use crate::outlook::Outlook;
use crate::step_outcome::Moved;
use crate::world::World;
use std::alloc::{AllocError, Allocator};
use std::hash::{FoldHasher, Hasher};
use std::marker::Model;
use std::sync::Arc;
use tn_process::{Functions, Process, StatePart};
use tn_program::Program;

/// The processes, and how many commands of the control list were taken.
#[derive(Drop)]
pub struct State<A: Allocator> {
    alloc: A,
    functions: Functions<A>,
    commands: usize,
    taken: usize,
    world: World<A>,
}

/// A node that runs a program, seen as its functions, the number of its commands and its state. It has none
/// of these once it was refused memory.
#[derive(Drop)]
pub struct Node<A: Allocator> {
    state: State<A>,
    /// Whether it was refused memory.
    is_spent: bool,
}

impl<A: Allocator> Model for Node<A> {
    ghost use Rattle.std.specs.Prelude.{Option};
    ghost use Rattle.std.specs.Coded.{coded_option};
    ghost use Rattle.tn_node.specs.Nodes.{NodeValue, node_code, node_seen, seen_unless};

    ghost Value = { Option NodeValue };

    ghost coded = { coded_option node_code };

    ghost view = { λ n. seen_unless n.is_spent (node_seen n.state) };
}

impl<A: Allocator + Copy> State<A> {
    ghost use Rattle.std.specs.Prelude.{◌≡◌, ◌<◌, Some, IfOk};
    ghost use Rattle.def_node.specs.Node.{opening_state, pick_result};
    ghost use Rattle.tn_program.specs.Views.{program_of};
    ghost use Rattle.tn_node.specs.Nodes.{node_at, node_seen, next_node, moved_seen};

    /// The state before any pick.
    fn new(alloc: A, program: &Program<A>) -> Result<State<A>, AllocError>
        ensures { let p = program_of program.now in IfOk result (λ s. node_seen s ≡ node_at p (opening_state p)) }
    {
        let functions = Functions::new(alloc, program.share_functions()?)?;
        let world = World::new(alloc, program.entries())?;
        Ok(State {
            alloc,
            functions,
            commands: program.commands().len(),
            taken: 0,
            world,
        })
    }

    /// Takes the next command of the control list.
    fn step_control(&mut self) -> Moved<A>
        ensures { let n = node_seen self.old in next_node n (pick_result n.functions n.commands n.state 0) ≡
            (Some (node_seen self.new), moved_seen result) }
    {
        if self.taken < self.commands {
            self.taken += 1;
            Moved::Control(self.taken as u64)
        } else {
            Moved::Idle
        }
    }

    /// A step of the process with this pid.
    fn step_process(&mut self, pid: u32) -> Result<Moved<A>, AllocError>
        requires { 0 < pid }
        ensures { let n = node_seen self.old in IfOk result (λ m.
            next_node n (pick_result n.functions n.commands n.state pid) ≡ (Some (node_seen self.new), moved_seen m)) }
    {
        match self.world.step(self.alloc, &self.functions, pid)? {
            Some(events) => Ok(Moved::Moved(events)),
            None => Ok(Moved::Idle),
        }
    }

    /// One pick.
    fn step(&mut self, pick: u32) -> Result<Moved<A>, AllocError>
        ensures { let n = node_seen self.old in IfOk result (λ m.
            next_node n (pick_result n.functions n.commands n.state pick) ≡ (Some (node_seen self.new), moved_seen m)) }
    {
        if pick == 0 {
            Ok(self.step_control())
        } else {
            Ok(self.step_process(pick)?)
        }
    }
}

impl<A: Allocator + Copy> Node<A> {
    ghost use Rattle.std.specs.Prelude.{◌≡◌, Some, None, IfOk, OnErr};
    ghost use Rattle.std.specs.Option.{IsSomeAnd};
    ghost use Rattle.def_node.specs.Node.{opening_state, pick_result};
    ghost use Rattle.tn_program.specs.Views.{program_of};
    ghost use Rattle.tn_node.specs.Nodes.{node_at, next_node, moved_seen};

    /// The node of the program, before any pick.
    pub fn new(alloc: A, program: &Program<A>) -> Result<Node<A>, AllocError>
        ensures { let p = program_of program.now in IfOk result (λ n. n ≡ Some (node_at p (opening_state p))) }
    {
        Ok(Node {
            state: State::new(alloc, program)?,
            is_spent: false,
        })
    }

    /// One pick: 0 is the control list, another number the process with that pid. The answer is the
    /// events of the step, the number of the command that is taken, or that nothing moved.
    ///
    /// # Errors
    ///
    /// AllocError where memory was refused, in this step or an earlier one: the node is spent.
    pub fn step(&mut self, pick: u32) -> Result<Moved<A>, AllocError>
        ensures moved { IfOk result (λ m. IsSomeAnd self.old (λ n.
            next_node n (pick_result n.functions n.commands n.state pick) ≡ (self.new, moved_seen m))) }
        ensures refused { OnErr result (self.new ≡ None) }
    {
        if self.is_spent {
            return Err(AllocError);
        }
        match self.state.step(pick) {
            Ok(moved) => Ok(moved),
            Err(refused) => {
                self.is_spent = true;
                Err(refused)
            }
        }
    }
}

impl<A: Allocator + Copy> Node<A> {
    ghost use Rattle.std.specs.Prelude.{◌≡◌};
    ghost use Rattle.tn_node.specs.Outlooks.{outlook_seen, outlook_in};

    /// What is known of the next step of the process that is picked, before it is made. Of pick 0, of a pid with
    /// which no process lives and of a node that is spent nothing is.
    pub fn outlook(&self, pick: u32) -> Outlook
        ensures { outlook_seen result ≡ outlook_in self.now pick }
    {
        if self.is_spent {
            return Outlook::nothing();
        }
        self.state
            .world
            .outlook(self.state.functions.as_slice(), pick)
    }
}

impl<A: Allocator + Copy> State<A> {
    ghost use Rattle.std.specs.Prelude.{◌≡◌, ◌↔◌, IfOk, IsTrue};
    ghost use Rattle.tn_node.specs.Nodes.{node_seen};

    /// The same state once more. The functions have one owner more.
    fn share(&self) -> Result<State<A>, AllocError>
        ensures { IfOk result (λ s. node_seen s ≡ node_seen self.now) }
    {
        let functions = self.functions.share()?;
        let world = self.world.share(self.alloc)?;
        Ok(State {
            alloc: self.alloc,
            functions,
            commands: self.commands,
            taken: self.taken,
            world,
        })
    }

    /// Whether the processes are the same, and equally many commands were taken.
    fn same(&self, other: &State<A>) -> bool
        ensures { IsTrue result ↔ ((node_seen self.now).state ≡ (node_seen other.now).state) }
    {
        self.taken == other.taken && self.world.same(&other.world)
    }

    /// A number that is the same for the same states, and mostly another for others.
    fn fingerprint(&self) -> u64 {
        let mut hasher = FoldHasher::default();
        hasher.write_usize(self.taken);
        self.world.add_to(&mut hasher);
        hasher.finish()
    }
}

impl<A: Allocator + Copy> Node<A> {
    ghost use Rattle.std.specs.Prelude.{◌≡◌, ◌↔◌, IfOk, IsTrue};
    ghost use Rattle.tn_node.specs.Nodes.{state_in};

    /// The same node once more. The functions of the program have one owner more, and so has each process: it is
    /// copied once one of the nodes changes it.
    ///
    /// # Errors
    ///
    /// AllocError where memory was refused, or a count of owners is full.
    pub fn share(&self) -> Result<Node<A>, AllocError>
        ensures { IfOk result (λ n. n ≡ self.now) }
    {
        Ok(Node {
            state: self.state.share()?,
            is_spent: self.is_spent,
        })
    }

    /// Whether both nodes are in the same state. Their programs are not compared. Nodes that are spent are the same.
    pub fn same(&self, other: &Node<A>) -> bool
        ensures { IsTrue result ↔ (state_in self.now ≡ state_in other.now) }
    {
        if self.is_spent || other.is_spent {
            return self.is_spent == other.is_spent;
        }
        self.state.same(&other.state)
    }

    /// A number that is the same for nodes in the same state, and mostly another for others.
    pub fn fingerprint(&self) -> u64 {
        if self.is_spent {
            return 0;
        }
        self.state.fingerprint()
    }
}

impl<A: Allocator + Copy> Node<A> {
    ghost use Rattle.std.specs.Prelude.{◌≡◌, map};
    ghost use Rattle.std.specs.Option.{option_map};
    ghost use Rattle.tn_node.specs.Nodes.{slots_in, taken_in};
    ghost use Rattle.tn_node.specs.Worlds.{slot_of};

    /// The processes that were started, from pid 100 on, with None where one has exited. None of a node that is spent.
    pub fn processes(&self) -> Option<&[Option<Arc<Process<A>, A>>]>
        ensures { option_map (λ ss. map slot_of ss.now) result ≡ slots_in self.now }
    {
        if self.is_spent {
            return None;
        }
        Some(self.state.world.slots.as_slice())
    }

    /// How many commands of the control list were taken. None of a node that is spent.
    pub fn commands_taken(&self) -> Option<usize>
        ensures { result ≡ taken_in self.now }
    {
        if self.is_spent {
            return None;
        }
        Some(self.state.taken)
    }
}
