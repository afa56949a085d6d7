//! Where there is memory, workloads and their scripts are made: their lengths.
use ci_base::{Bytes, OutOfMemory};
use ci_workload::{MOST_WORKLOAD, workload, workload_script};
use std::test::Fail;

/// The length of a text that was made.
fn length_of(text: Result<Bytes, OutOfMemory>) -> Option<usize> {
    match text {
        Ok(bytes) => Some(bytes.bytes().len()),
        Err(_) => None,
    }
}

#[test]
fn workloads_are_made(rt: HostRuntime) -> Result<(), Fail> {
    assert_eq!(rt; length_of(workload(rt.alloc(), 1)), Some(168));
    assert_eq!(rt;
        length_of(workload(rt.alloc(), MOST_WORKLOAD)),
        Some(122_251)
    );
    Ok(())
}

#[test]
fn scripts_of_workloads_are_made(rt: HostRuntime) -> Result<(), Fail> {
    assert_eq!(rt; length_of(workload_script(rt.alloc(), 49)), Some(11));
    assert_eq!(rt;
        length_of(workload_script(rt.alloc(), MOST_WORKLOAD)),
        Some(137)
    );
    Ok(())
}
