// Any list of calls. The list here is that of the cases (oracle/make-cases); the differential runs hand it others, and compare with the Rust.
#![tactic(auto)]

fn main(rt: HostRuntime) {
    call_lists::run(rt);
}
