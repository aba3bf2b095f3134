//! Which threads are to be woken.
ghost use Rattle.std.specs.Prelude.{◌≡◌, IfSome, Some, false, true, slice_index_or};
ghost use Rattle.node_threads.specs.declared.wake_list.Sleeper.{Sleeper};
ghost use Rattle.node_threads.specs.proof.Sleepers.{no_wakes, with_wake, is_to_wake, without_sleeper};

use pals_base::limits::COMPONENTS;

/// A thread that may sleep: that of a node, or the calling thread.
#[derive(Clone, Copy)]
pub enum Sleeper {
    /// The own thread of the node of this number.
    Node(usize),
    /// The calling thread.
    Caller,
}

/// The nodes whose threads are to be woken, and whether the calling thread is. They are noted under the
/// lock, and woken one after the other once it is free.
#[derive(Drop)]
pub struct WakeList {
    // Whether anybody may have to be woken. Where it is false the other two do not count.
    any: bool,
    // Of each node, whether its own thread is.
    nodes: [bool; COMPONENTS],
    // Whether the calling thread is.
    caller: bool,
}

impl WakeList {
    /// Nobody is to be woken.
    pub fn none() -> WakeList
        ensures { result ≡ no_wakes }
    {
        WakeList {
            any: false,
            nodes: [false; COMPONENTS],
            caller: false,
        }
    }

    /// The thread that has a node is to be woken too: the calling thread, or the node's own.
    pub fn add(&mut self, number: usize, of_caller: bool)
        ensures { self.new ≡ with_wake self.old number of_caller }
    {
        self.any = true;
        if of_caller {
            self.caller = true;
        } else if number < COMPONENTS {
            self.nodes[number] = true;
        }
    }

    /// Whether anybody may have to be woken.
    pub fn any(&self) -> bool
        ensures { result ≡ self.now.any }
    {
        self.any
    }

    /// A node's own thread need not be woken.
    pub fn remove(&mut self, number: usize)
        ensures { self.new ≡ without_sleeper self.old (Some (Sleeper.Node number)) }
    {
        if number < COMPONENTS {
            self.nodes[number] = false;
        }
    }

    /// One thread that is to be woken, which then is noted no longer. The calling thread comes last.
    pub fn take(&mut self) -> Option<Sleeper>
        ensures taken { IfSome result (λ sleeper. is_to_wake self.old sleeper ≡ true) }
        ensures rest { self.new ≡ without_sleeper self.old result }
    {
        if !self.any {
            return None;
        }
        if let Some(number) = self.first() {
            self.remove(number);
            return Some(Sleeper::Node(number));
        }
        self.any = false;
        if !self.caller {
            return None;
        }
        self.caller = false;
        Some(Sleeper::Caller)
    }

    // The first node whose thread is noted.
    fn first(&self) -> Option<usize>
        ensures { IfSome result (λ number. slice_index_or self.now.nodes number false ≡ true) }
    {
        for number in 0..COMPONENTS {
            if self.nodes[number] {
                return Some(number);
            }
        }
        None
    }
}
