//! The printed forms of the faults.
use command_words::WordsFault;

#[test]
fn faults_are_told(rt: HostRuntime) {
    let usage = WordsFault::Usage
        .to_string(rt.alloc())
        .expect(&rt, "memory");
    assert!(rt; usage.as_str() == "usage: itpg [--max-rows N] [--trial NUMBER] [--json]");
    let memory = WordsFault::Memory
        .to_string(rt.alloc())
        .expect(&rt, "memory");
    assert!(rt; memory.as_str() == "out of memory");
}
