//! Tests of runs in threads in which the nodes meet, under many schedules.
use crate::bus_runs::{bus_of, tells};
use crate::gates::Yields;
use case_files::example_designs::TURN;
use node_threads::{Host, ThreadStarter};
use pals_clock::Clocks;
use std::test::Fail;

const TURNED: &str = "round 0\n\
p.m s sum=0\n\
p.l s a=0\n\
p.r s a=0\n\
p.t s a=0\n\
round 1\n\
p.m s sum=0\n\
p.l s a=1\n\
p.r s a=2\n\
p.t s a=4\n\
round 2\n\
p.m s sum=5\n\
p.l s a=2\n\
p.r s a=4\n\
p.t s a=8\n\
finished\nfinished\nfinished\nfinished\n";

#[test]
fn schedules_do_not_show(rt: HostRuntime) -> Result<(), Fail> {
    let alloc = rt.alloc();
    let bus = bus_of(&rt, alloc, TURN, true)?;
    for seed in 0..1_000 {
        let gate = Yields::new(seed);
        let host = Host {
            runtime: &rt,
            starter: &mut ThreadStarter,
            gate: &gate,
        };
        assert!(rt;
            tells(host, alloc, &bus, Clocks::Meet, TURNED)?,
            "seed {seed}"
        );
    }
    Ok(())
}
