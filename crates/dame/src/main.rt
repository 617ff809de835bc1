// Answers requests about draughts positions, each by one line on standard output: its arguments are one request;
// without arguments, each line of standard input is one.
#![tactic(auto)]

fn main(rt: HostRuntime) {
    lines::serve(&rt);
}
