//! The lists of the writers' types.

use comp_wire::Seq;
use std::test::Fail;

#[test]
fn items_come_back(rt: HostRuntime) -> Result<(), Fail> {
    let items = Seq::from_vec(vec![in rt.alloc(); 1, 2, 300]?);
    assert_eq!(rt; items.as_slice(), [1, 2, 300].as_slice());
    assert_eq!(rt; items.into_vec().as_slice(), [1, 2, 300].as_slice());
    Ok(())
}
