use keys::point::Point;
use refusals::refusal::Refusal;
use search_tree::{Node, SearchTree};
use sorted_run::SortedRun;
use std::process::Abort;
use std::test::Fail;
use store::version::Version;
use store::version_store::VersionStore;

// A version of a point; its value tells it from the others.
fn of(key: u32, stamp: u64, node: u8, value: i32) -> Version<Point> {
    Version {
        key: Point(key),
        stamp,
        node,
        value,
    }
}

// The number of a refusal, if there is one.
fn number<T: Drop>(answer: Result<T, Refusal>) -> Option<u8> {
    Some(answer.err()?.number())
}

// What comes of versions that are added in turn: the number of the refusal, if there is one.
fn adds_are_answered<S: VersionStore<Point>>(
    rt: &impl Abort,
    store: &mut S,
    adds: &[(Version<Point>, Option<u8>)],
) {
    for (version, refused) in adds {
        assert_eq!(rt; number(store.add(version)), *refused, "{version:?}");
    }
}

// The value that a read of a key at a stamp answers.
fn reads_are_answered<S: VersionStore<Point>>(
    rt: &impl Abort,
    store: &S,
    reads: &[(u32, u64, Option<i32>)],
) {
    for (key, stamp, value) in reads {
        let found = store.at(Point(*key), *stamp);
        assert_eq!(rt; found.map(|version| version.value), *value, "{key} {stamp}");
    }
}

// A store of eight places: three keys, a tie between nodes, and the ends of the stamps.
fn eight_places_answer<S: VersionStore<Point>>(rt: &impl Abort, store: &mut S) {
    assert_eq!(rt; (store.count(), store.capacity()), (0, 8));
    reads_are_answered(rt, store, &[(7, u64::MAX, None)]);
    let adds = [
        (of(7, 500, 1, 71), None),
        (of(4, 500, 0, 41), None),
        (of(9, u64::MAX, 255, 91), None),
        (of(7, 500, 0, 70), None),
        (of(7, 900, 0, 73), None),
        (of(4, 0, 0, 40), None),
        (of(7, 500, 3, 72), None),
    ];
    adds_are_answered(rt, store, &adds);
    // At, above and below a stamp; the highest node at a tie; the ends.
    let reads = [
        (7, 499, None),
        (7, 500, Some(72)),
        (7, 501, Some(72)),
        (7, 899, Some(72)),
        (7, 900, Some(73)),
        (7, u64::MAX, Some(73)),
        (7, 0, None),
        (4, 0, Some(40)),
        (4, 499, Some(40)),
        (4, 500, Some(41)),
        (9, u64::MAX - 1, None),
        (9, u64::MAX, Some(91)),
        (5, u64::MAX, None),
        (0, u64::MAX, None),
        (10, u64::MAX, None),
    ];
    reads_are_answered(rt, store, &reads);
    // A repeated version is refused, whatever its value; a full store refuses a new one, and a repeated one as before.
    let adds = [
        (of(7, 500, 3, 0), Some(17)),
        (of(7, 500, 2, 74), None),
        (of(7, 500, 4, 0), Some(16)),
        (of(7, 500, 2, 0), Some(17)),
    ];
    adds_are_answered(rt, store, &adds);
    assert_eq!(rt; store.count(), 8);
    reads_are_answered(rt, store, &[(7, 500, Some(72))]);
}

fn one_place_answers<S: VersionStore<Point>>(rt: &impl Abort, store: &mut S) {
    let adds = [
        (of(1, 1, 1, 1), None),
        (of(1, 1, 1, 2), Some(17)),
        (of(1, 1, 0, 2), Some(16)),
    ];
    adds_are_answered(rt, store, &adds);
    assert_eq!(rt; (store.count(), store.capacity()), (1, 1));
    reads_are_answered(rt, store, &[(1, 1, Some(1)), (1, 0, None)]);
}

fn no_place_answers<S: VersionStore<Point>>(rt: &impl Abort, store: &mut S) {
    adds_are_answered(rt, store, &[(of(1, 1, 1, 1), Some(16))]);
    assert_eq!(rt; (store.count(), store.capacity()), (0, 0));
}

#[test]
fn a_run_answers(rt: HostRuntime) -> Result<(), Fail> {
    let blank = of(0, 0, 0, 0);
    eight_places_answer(&rt, &mut SortedRun::new(&mut [blank; 8])?);
    one_place_answers(&rt, &mut SortedRun::new(&mut [blank])?);
    no_place_answers(&rt, &mut SortedRun::new(&mut [])?);
    Ok(())
}

#[test]
fn a_tree_answers(rt: HostRuntime) -> Result<(), Fail> {
    let blank = Node::new(of(0, 0, 0, 0));
    eight_places_answer(&rt, &mut SearchTree::new(&mut [blank; 8])?);
    one_place_answers(&rt, &mut SearchTree::new(&mut [blank])?);
    no_place_answers(&rt, &mut SearchTree::new(&mut [])?);
    Ok(())
}

#[test]
fn a_place_too_many_is_refused(rt: HostRuntime) -> Result<(), Fail> {
    let blank = of(0, 0, 0, 0);
    let mut places = Vec::new(rt.alloc());
    places.resize(65_536, blank)?;
    assert_eq!(rt; number(SortedRun::new(places.as_mut_slice())), Some(4));
    places.pop();
    assert_eq!(rt; SortedRun::new(places.as_mut_slice())?.capacity(), 65_535);
    let mut nodes = Vec::new(rt.alloc());
    nodes.resize(65_536, Node::new(blank))?;
    assert_eq!(rt; number(SearchTree::new(nodes.as_mut_slice())), Some(4));
    nodes.pop();
    assert_eq!(rt; SearchTree::new(nodes.as_mut_slice())?.capacity(), 65_535);
    Ok(())
}
