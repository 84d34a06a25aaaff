//! Whole scripts, measured. The numbers were worked out by a generator apart from this one.
use std::alloc::Global;
use std::process::Abort;
use trial_script::{Trial, asked, trial_line};

// How many lines a script has, how many of them ask, and the sum of all bytes, each times its place in the line and the line's
// in the script, modulo 2^64.
fn measure(rt: &impl Abort, alloc: Global, number: u64) -> (u64, u64, u64) {
    let mut trial = Trial::new(number);
    let (mut lines, mut questions, mut sum) = (0u64, 0u64, 0u64);
    for _ in 0..10_000 {
        if let Some(line) = trial_line(alloc, &mut trial).expect(rt, "memory") {
            lines = lines.wrapping_add(1);
            questions = questions.wrapping_add(u64::from(asked(&line).is_some()));
            sum = sum.wrapping_add(lines.wrapping_mul(weight(&line)));
        }
    }
    (lines, questions, sum)
}

fn weight(line: &[u8]) -> u64 {
    let mut sum = 0u64;
    let mut place = 0u64;
    for byte in line {
        place = place.wrapping_add(1);
        sum = sum.wrapping_add(place.wrapping_mul(u64::from(*byte)));
    }
    sum
}

#[test]
fn whole_scripts(rt: HostRuntime) {
    for (number, lines, sum) in [
        (0, 4_476, 176_596_575_977),
        (7, 4_486, 178_088_238_191),
        (u64::MAX, 4_478, 176_988_964_412),
    ] {
        let found = measure(&rt, rt.alloc(), number);
        assert!(rt; found == (lines, 3, sum), "trial {number}");
    }
}
