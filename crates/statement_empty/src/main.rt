// The program `statement` on empty input.
#![tactic(auto)]

fn main(rt: HostRuntime) {
    program::run(&rt);
}
