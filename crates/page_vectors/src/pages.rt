use keys::point::Point;
use search_tree::{Node, SearchTree};
use sorted_run::SortedRun;
use std::process::Abort;
use std::test::Fail;
use store::cut::cut;
use store::listable::Listable;
use store::version::Version;

// A version of a point; its value tells it from the others.
fn of(key: u32, stamp: u64, node: u8, value: i32) -> Version<Point> {
    Version {
        key: Point(key),
        stamp,
        node,
        value,
    }
}

// An empty store, and then one with three keys, a tie between nodes, and the ends of the stamps.
fn a_store_is_listed<S: Listable<Point>>(rt: &impl Abort, store: &mut S) -> Result<(), Fail> {
    assert_eq!(rt; store.first_key(), None);
    assert_eq!(rt; store.next_key(Point(0)), None);
    assert_eq!(rt; cut(store, u64::MAX, &mut []), Ok(0));
    for version in [
        of(7, 500, 1, 71),
        of(4, 500, 0, 41),
        of(9, u64::MAX, 255, 91),
        of(7, 500, 0, 70),
        of(7, 900, 0, 73),
        of(4, 0, 0, 40),
        of(7, 500, 3, 72),
    ] {
        store.add(&version)?;
    }
    keys_are_told(rt, store);
    pages_are_cut(rt, store);
    Ok(())
}

// Keys that are there, and keys between keys.
fn keys_are_told<S: Listable<Point>>(rt: &impl Abort, store: &S) {
    assert_eq!(rt; store.first_key(), Some(Point(4)));
    for (key, next) in [
        (0, Some(Point(4))),
        (3, Some(Point(4))),
        (4, Some(Point(7))),
        (5, Some(Point(7))),
        (7, Some(Point(9))),
        (8, Some(Point(9))),
        (9, None),
        (u32::MAX, None),
    ] {
        assert_eq!(rt; store.next_key(Point(key)), next, "{key}");
    }
}

// Cuts of that store.
fn pages_are_cut<S: Listable<Point>>(rt: &impl Abort, store: &S) {
    let blank = of(0, 0, 0, -1);
    let (first, last) = (of(4, 0, 0, 40), of(4, 500, 0, 41));
    let newest = of(7, 900, 0, 73);
    for (stamp, count, page) in [
        (0, 1, [first, blank, blank, blank]),
        (499, 1, [first, blank, blank, blank]),
        (500, 2, [last, of(7, 500, 3, 72), blank, blank]),
        (900, 2, [last, newest, blank, blank]),
        (u64::MAX, 3, [last, newest, of(9, u64::MAX, 255, 91), blank]),
    ] {
        let mut rows = [blank; 4];
        assert_eq!(rt; cut(store, stamp, &mut rows), Ok(count), "{stamp}");
        assert_eq!(rt; rows, page, "{stamp}");
    }
    // A row too few, and none changes.
    let mut rows = [blank; 2];
    let refused = cut(store, u64::MAX, &mut rows).err();
    assert_eq!(rt; refused.map(|refusal| refusal.number()), Some(19));
    assert_eq!(rt; rows, [blank; 2]);
}

#[test]
fn a_run_is_listed(rt: HostRuntime) -> Result<(), Fail> {
    let blank = of(0, 0, 0, 0);
    a_store_is_listed(&rt, &mut SortedRun::new(&mut [blank; 7])?)
}

#[test]
fn a_tree_is_listed(rt: HostRuntime) -> Result<(), Fail> {
    let blank = Node::new(of(0, 0, 0, 0));
    a_store_is_listed(&rt, &mut SearchTree::new(&mut [blank; 7])?)
}
