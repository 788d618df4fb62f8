// A set is written as the file from which it was read.
use crate::sets::{COUNTED, set_of};
use std::alloc::Global;
use std::test::Fail;
use vms_desc::DescSet;
use vms_descfile::write_set;

fn written(alloc: Global, set: DescSet) -> Result<String, Fail> {
    Ok(write_set(alloc, &set).ok().ok_or("memory")?)
}

#[test]
fn a_set_is_read_and_written_again(rt: HostRuntime) -> Result<(), Fail> {
    let text = written(rt.alloc(), set_of(rt.alloc(), COUNTED)?)?;
    assert!(rt; text.as_str() == COUNTED);
    Ok(())
}
