//! Each caller on two maps that people know.
use crate::{left_merge_join, merge_join};
use sorted_vector_map::SortedVectorMap;
use std::alloc::Global;
use std::test::Fail;

fn map_of(
    alloc: Global,
    first: (u32, char),
    second: (u32, char),
) -> Result<SortedVectorMap<u32, char>, Fail> {
    let mut map = SortedVectorMap::new(alloc);
    drop(map.insert(first.0, first.1)?);
    drop(map.insert(second.0, second.1)?);
    Ok(map)
}

#[test]
fn merge_joins_of_two_maps(rt: HostRuntime) -> Result<(), Fail> {
    let alloc = rt.alloc();
    let a = map_of(alloc, (2, 'b'), (1, 'a'))?;
    let b = map_of(alloc, (3, 'y'), (2, 'x'))?;
    assert_eq!(rt;
        merge_join(alloc, &a, &b)?.as_slice(),
        [(2, ('b', 'x'))].as_slice()
    );
    assert_eq!(rt;
        left_merge_join(alloc, &a, &b)?.as_slice(),
        [(1, ('a', None)), (2, ('b', Some('x')))].as_slice()
    );
    Ok(())
}
