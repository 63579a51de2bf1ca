use crate::run::soak;
use std::test::Fail;

#[test]
fn seven_documents(rt: HostRuntime) -> Result<(), Fail> {
    let alloc = rt.alloc();
    let mut line = Vec::new(alloc);
    soak(alloc, 7)?.print(&mut line)?;
    assert_eq!(rt;
        line.as_slice(),
        b"documents 7 loads 1 expanded 826 compacted 595 flattened 973 runs 57".as_slice()
    );
    Ok(())
}

#[test]
fn no_document(rt: HostRuntime) -> Result<(), Fail> {
    let alloc = rt.alloc();
    let mut line = Vec::new(alloc);
    soak(alloc, 0)?.print(&mut line)?;
    assert_eq!(rt;
        line.as_slice(),
        b"documents 0 loads 1 expanded 0 compacted 0 flattened 0 runs 1".as_slice()
    );
    Ok(())
}
