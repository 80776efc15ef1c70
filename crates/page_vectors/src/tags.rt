use keys::tag::Tag;
use search_tree::{Node, SearchTree};
use sorted_run::SortedRun;
use std::test::Fail;
use store::agree::agree;
use store::listable::Listable;
use store::version::Version;
use store::version_store::VersionStore;

#[test]
fn a_run_and_a_tree_of_tags_agree(rt: HostRuntime) -> Result<(), Fail> {
    let pump = Tag::try_from(b"PUMP\0\0\0\0\0\0\0\0\0\0\0\0")?;
    let pump_2 = Tag::try_from(b"PUMP-2\0\0\0\0\0\0\0\0\0\0")?;
    let fan = Tag::try_from(b"FAN\0\0\0\0\0\0\0\0\0\0\0\0\0")?;
    let blank = Version {
        key: fan,
        stamp: 0,
        node: 0,
        value: 0,
    };
    let (mut places, mut nodes) = ([blank; 4], [Node::new(blank); 4]);
    let mut run = SortedRun::new(&mut places)?;
    let mut tree = SearchTree::new(&mut nodes)?;
    for (key, stamp, value) in [(pump_2, 5, 1), (pump, 9, 2), (fan, 7, 3), (pump, 5, 4)] {
        let version = Version {
            key,
            stamp,
            node: 0,
            value,
        };
        run.add(&version)?;
        // One version apart, they differ somewhere.
        assert!(rt; !agree(&run, &tree, key, stamp));
        tree.add(&version)?;
        for asked in [pump, pump_2, fan] {
            for stamp in [0, 5, 8, 9] {
                assert!(rt; agree(&run, &tree, asked, stamp));
            }
        }
    }
    assert_eq!(rt; run.first_key(), Some(fan));
    assert_eq!(rt; tree.next_key(pump), Some(pump_2));
    Ok(())
}
