//! Jobs outside the lock, each with the step code of its node in the run.
ghost use Rattle.std.specs.Prelude.{◌≡◌};
ghost use Rattle.node_threads.specs.proof.OwnJobs.{IsOwn};

use crate::job_gate::{Gate, done_by};
use crate::run_codes::RunCodes;
use pals_node::{Done, Job};
use std::marker::PhantomData;

/// The job of a node, with the code that this node has in the run.
#[derive(Drop)]
pub struct OwnJob<C: RunCodes> {
    job: Job,
    run: PhantomData<C>,
    ghost own: { IsOwn C.codes job },
}

/// A finished job of a node, with the code that this node has in the run.
#[derive(Drop)]
pub struct OwnDone<C: RunCodes> {
    done: Done,
    run: PhantomData<C>,
    ghost own: { IsOwn C.codes done },
}

impl<C: RunCodes> OwnJob<C> {
    /// A job with its node's code.
    pub fn new(job: Job) -> OwnJob<C>
        requires { IsOwn C.codes job }
        ensures { result.job ≡ job }
    {
        OwnJob {
            job,
            run: PhantomData,
        }
    }

    /// Does the job between the calls of the gate, outside the lock.
    pub fn done_by<G: Gate>(self, gate: &G) -> OwnDone<C>
        ensures { result.done ≡ self.job }
    {
        let OwnJob { job, run } = self;
        OwnDone {
            done: done_by(gate, job),
            run,
        }
    }
}

impl<C: RunCodes> OwnDone<C> {
    /// The finished job.
    pub fn into_done(self) -> Done
        ensures done { result ≡ self.done }
        ensures own { IsOwn C.codes result }
    {
        self.done
    }
}
