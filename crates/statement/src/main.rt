// Prints the statement of the sheet on standard input (document 01, "Printing").
#![tactic(auto)]

fn main(rt: HostRuntime) {
    program::run(&rt);
}
