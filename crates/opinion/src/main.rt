// The stored cases of the second program, `rust/second`, with its answers; `tools/stored-cases` makes them. What was lent is printed in
// short. How a case is written is said in `casebook`.
#![tactic(auto)]

fn main(rt: HostRuntime) {
    casebook::run(&rt, true);
}
