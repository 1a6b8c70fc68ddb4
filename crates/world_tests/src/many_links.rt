//! One link among very many that breaks an axiom.
use crate::showing::*;
use std::alloc::{AllocError, Global};
use std::test::Fail;
use worlds::Link;

/// Entry 9 is in class 2, entry 4,095 in class 0, and each other of 4,096 entries in class 1.
fn classes(heap: Global) -> Result<Vec<u64>, AllocError> {
    let words = (0..4096).map(|entry| match entry {
        9 => 4,
        4095 => 1,
        _ => 2,
    });
    words.collect(heap)
}

/// From each entry some links to entries in class 1, by roles 0 and 1 alike, and the odd one after so many pairs.
fn pairs_and(heap: Global, odd: Link, after: u32) -> Result<Vec<Link>, AllocError> {
    let mut links = Vec::new(heap);
    for pair in 0..8192 {
        if pair == after {
            links.push(odd)?;
        }
        if pair < 8191 {
            let from = pair * 3 % 4096;
            let to = pair * 7 % 4000 + 50;
            links.push(link(from, 1, to))?;
            links.push(link(from, 0, to))?;
        }
    }
    Ok(links)
}

/// The link from 4,095 to 9 alone breaks each axiom, where it is the first, the last or another; the same link by role 1 breaks none.
#[test]
fn the_odd_link(rt: HostRuntime) -> Result<(), Fail> {
    let heap = rt.alloc();
    let words = classes(heap)?;
    for after in [0, 1, 1366, 5000, 8190, 8191] {
        let odd = pairs_and(heap, link(4095, 0, 9), after)?;
        assert_eq!(rt; odd.len(), 16383);
        let even = pairs_and(heap, link(4095, 1, 9), after)?;
        for axiom in [roles(0, 1), forall(0, 0, 1), exists_lower(0, 2, 1)] {
            assert_eq!(rt;
                found_in_entries(words.as_slice(), odd.as_slice(), &[axiom])?,
                broken(0, 4095),
                "{axiom:?}, odd after {after}"
            );
            assert_eq!(rt;
                found_in_entries(words.as_slice(), even.as_slice(), &[axiom])?,
                None,
                "{axiom:?}, even after {after}"
            );
        }
        assert_eq!(rt;
            found_in_entries(words.as_slice(), odd.as_slice(), &[exists(0, 0, 2)])?,
            None
        );
        assert_eq!(rt;
            found_in_entries(words.as_slice(), even.as_slice(), &[exists(0, 0, 2)])?,
            broken(0, 4095)
        );
    }
    Ok(())
}
