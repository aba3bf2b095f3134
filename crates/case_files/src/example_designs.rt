//! Designs for the tests of several crates, each as a bundle without a scenario.

/// Two counters; each adds 1 and the other's last sum to its own sum.
pub const TWO_COUNTERS: &str = "package Two\n\
public\n\
with Base_Types;\n\
with PALS_Profile;\n\
thread Counter\n\
features\n\
\x20i: in data port Base_Types::Integer;\n\
\x20o: out data port Base_Types::Integer;\n\
properties\n\
\x20Dispatch_Protocol => Periodic;\n\
end Counter;\n\
thread implementation Counter.impl\n\
annex behavior_specification {**\n\
variables\n\
\x20x: Base_Types::Integer;\n\
states\n\
\x20s: initial complete state;\n\
transitions\n\
\x20s -[on dispatch]-> s {x := x + i + 1; o!(x)};\n\
**};\n\
end Counter.impl;\n\
process Pair\n\
end Pair;\n\
process implementation Pair.impl\n\
subcomponents\n\
\x20a: thread Counter.impl;\n\
\x20b: thread Counter.impl;\n\
connections\n\
\x20c1: port a.o -> b.i {Timing => Delayed;};\n\
\x20c2: port b.o -> a.i {Timing => Delayed;};\n\
end Pair.impl;\n\
system Top\n\
end Top;\n\
system implementation Top.impl\n\
subcomponents\n\
\x20p: process Pair.impl;\n\
properties\n\
\x20Period => 9 ms;\n\
\x20PALS_Profile::Skew => 1 ms;\n\
\x20PALS_Profile::Execution => 0 ms .. 3 ms;\n\
\x20PALS_Profile::Network => 1 ms .. 4 ms;\n\
end Top.impl;\n\
end Two;\n%%%\n";

/// A main component and three surfaces that it turns, of rates 1, 1, 2 and 4.
pub const TURN: &str = "package Turn public\n\
thread Main features\n\
\x20goal: in data port Base_Types::Integer;\n\
\x20l: in data port Base_Types::Integer;\n\
\x20r: in data port Base_Types::Integer;\n\
\x20t: in data port Base_Types::Integer;\n\
\x20cmd: out data port Base_Types::Integer;\n\
properties Dispatch_Protocol => Periodic;\n\
end Main;\n\
thread implementation Main.impl annex behavior_specification {**\n\
variables sum: Base_Types::Integer;\n\
states s: initial complete state;\n\
transitions s -[on dispatch]-> s {sum := l + r + t; cmd!(goal)};\n\
**};\n\
end Main.impl;\n\
thread Surface features\n\
\x20target: in data port Base_Types::Integer;\n\
\x20angle: out data port Base_Types::Integer;\n\
properties Dispatch_Protocol => Periodic;\n\
end Surface;\n\
thread implementation Surface.impl annex behavior_specification {**\n\
variables a: Base_Types::Integer;\n\
states s: initial complete state; mv: state;\n\
transitions\n\
\x20s -[on dispatch]-> mv;\n\
\x20mv -[target > a]-> s {a := a + 1; angle!(a)};\n\
\x20mv -[target < a]-> s {a := a - 1; angle!(a)};\n\
\x20mv -[otherwise]-> s {angle!(a)};\n\
**};\n\
end Surface.impl;\n\
process Plane features goal: in data port Base_Types::Integer; end Plane;\n\
process implementation Plane.impl\n\
subcomponents\n\
\x20m: thread Main.impl;\n\
\x20l: thread Surface.impl;\n\
\x20r: thread Surface.impl {Period => 10 ms;};\n\
\x20t: thread Surface.impl {Period => 5 ms;};\n\
connections\n\
\x20g: port goal -> m.goal;\n\
\x20c1: port m.cmd -> l.target {Timing => Delayed;};\n\
\x20c2: port m.cmd -> r.target {Timing => Delayed; PALS_Profile::Input_Adaptor => \"repeat\";};\n\
\x20c3: port m.cmd -> t.target {Timing => Delayed; PALS_Profile::Input_Adaptor => \"repeat\";};\n\
\x20c4: port l.angle -> m.l {Timing => Delayed;};\n\
\x20c5: port r.angle -> m.r {Timing => Delayed; PALS_Profile::Input_Adaptor => \"last\";};\n\
\x20c6: port t.angle -> m.t {Timing => Delayed; PALS_Profile::Input_Adaptor => \"average\";};\n\
end Plane.impl;\n\
system Top features goal: in data port Base_Types::Integer; end Top;\n\
system implementation Top.impl\n\
subcomponents p: process Plane.impl;\n\
connections g: port goal -> p.goal;\n\
properties Period => 20 ms; PALS_Profile::Skew => 1 ms;\n\
\x20PALS_Profile::Execution => 0 ms .. 3 ms;\n\
\x20PALS_Profile::Network => 1 ms .. 4 ms;\n\
end Top.impl;\n\
end Turn;\n%%%\n";
