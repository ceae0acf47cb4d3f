use std::test::Fail;
use wdf_base::ObjectId;
use wdf_maps::{entry_at, object_at, put_at};

#[test]
fn a_write_past_the_end_leaves_blank_entries(rt: HostRuntime) -> Result<(), Fail> {
    let mut entries = Vec::with_capacity(rt.alloc(), 9)?;
    put_at(&mut entries, 0, 3, 7u8);
    put_at(&mut entries, 0, 1, 5);
    assert!(rt; entries.as_slice() == [0, 5, 0, 7].as_slice());
    assert!(rt; entry_at(&entries, 9, 3) == 7 && entry_at(&entries, 9, 4) == 9);
    assert!(rt; object_at(Some(4)) == Some(ObjectId(4)));
    Ok(())
}
