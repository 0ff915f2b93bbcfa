// The trace program: a board in its own arrays, all zero at the start, and a trace from standard input (document 01, The bench trace).
#![tactic(auto)]

fn main(rt: HostRuntime) {
    runner::run(rt.stdin(), rt.stdout(), u64::MAX);
}
