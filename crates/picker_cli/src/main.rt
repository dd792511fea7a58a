// The program: a catalogue from standard input, its answer to standard output.
#![tactic(auto)]

use picker_io::run;

fn main(rt: HostRuntime) {
    let mut from = rt.reader();
    run::run(&rt, &mut from, "standard input");
}
