// The page's cases, worked out by hand. What was lent is printed in full. How a case is written is said in `casebook`.
#![tactic(auto)]

fn main(rt: HostRuntime) {
    casebook::run(&rt, false);
}
