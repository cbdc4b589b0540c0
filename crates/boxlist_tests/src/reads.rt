// Reads a text to its end or its first fault.
use boxlist::faults::{Fault, Layer};
use boxlist::list::BoxList;
use std::process::Abort;

pub(crate) fn read(text: &[u8]) -> Result<(), Fault> {
    let mut list = BoxList::new(text);
    while let Some(_) = list.record()? {}
    Ok(())
}

pub(crate) fn check_fault(rt: &impl Abort, text: &[u8], line: usize, cause: u32) {
    let fault = read(text).expect_err(rt, "no fault was found");
    assert_eq!(rt; (fault.faulty_line(), fault.cause()), (line, cause));
    assert!(rt; matches!(fault.layer, Layer::Text(_)), "the layer");
}

pub(crate) fn check_whole(rt: &impl Abort, text: &[u8]) {
    assert_eq!(rt; read(text), Ok(()));
}
