// Long texts, and what a text's length is refused for.
use crate::reads::*;
use boxlist::faults::length_fault;
use std::test::Fail;

// Settings, as many boxes as asked for, and the end.
fn boxes(rt: &HostRuntime, count: usize) -> Result<Vec<u8>, Fail> {
    let mut text = Vec::new(rt.alloc());
    text.extend_from_slice(b"ST 100 5 10 25 1\n")?;
    // So many times: nothing is counted by it.
    for _ in 0..count {
        text.extend_from_slice(b"BX 1 0\n")?;
    }
    text.extend_from_slice(b"EN\n")?;
    Ok(text)
}

#[test]
fn many_boxes(rt: HostRuntime) -> Result<(), Fail> {
    let text = boxes(&rt, 256)?;
    check_whole(&rt, text.as_slice());
    let text = boxes(&rt, 257)?;
    check_whole(&rt, text.as_slice());
    Ok(())
}

#[test]
fn the_longest_text(rt: HostRuntime) {
    assert_eq!(rt; length_fault(8_192), None);
    let fault = length_fault(8_193).expect(&rt, "8,193 bytes are let through");
    assert_eq!(rt; (fault.line, fault.cause()), (0, 7));
}
