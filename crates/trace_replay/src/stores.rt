// Replays runs on a recorder with trace clocks, and with the store of its kind of keys.
ghost use Rattle.std.specs.Prelude.{◌≡◌, IfOk, length, map, pos};
ghost use Rattle.replay.specs.Calls.{answer_numbers};
ghost use Rattle.trace_replay.specs.Traced.{HasPlaces, IsTraced, places};
ghost use Rattle.trace_run.specs.SetUp.{set_up_numbers};

use clocks::trace_clocks::TraceClocks;
use keys::kind::KeyKind;
use keys::point::Point;
use keys::tag::Tag;
use recorder::empty_store::EmptyStore;
use replay::call::Answer;
use replay::replay::{Run, replay};
use search_tree::{Node, SearchTree};
use sorted_run::SortedRun;
use std::alloc::{AllocError, Global};
use store::listable::Listable;
use store::version::Version;
use trace_run::calls::TraceKey;
use trace_run::setup::SetUp;

// For so many versions there is room.
const PLACES: usize = 1024;

// What stands in a place that has no version yet: any key will do.
fn blank<K>(key: K) -> Version<K>
    ensures { result ≡ record { key = key; stamp = 0; node = 0; value = pos 0 } }
{
    Version {
        key,
        stamp: 0,
        node: 0,
        value: 0,
    }
}

// Some tag.
fn any_tag() -> Tag {
    Tag::try_from(b"-\0\0\0\0\0\0\0\0\0\0\0\0\0\0\0").unwrap()
}

// As many rows as there are places, each this one.
fn rows_of<K: KeyKind>(heap: Global, row: Version<K>) -> Result<Vec<Version<K>>, AllocError>
    ensures { IfOk result (λ rows. length rows.items ≡ places) }
{
    let mut rows = Vec::new(heap);
    rows.resize(PLACES, row)?;
    Ok(rows)
}

// What a recorder with trace clocks and this store answers to a run.
fn answers_to<K: TraceKey, S: Listable<K> + Drop>(
    heap: Global,
    setup: SetUp,
    store: EmptyStore<K, S>,
    run: Run<K>,
) -> Result<Vec<Answer<K>>, AllocError>
    requires { HasPlaces store }
    ensures { IfOk result (λ answers. IsTraced K.cmp (set_up_numbers setup)
        run.calls.items run.closes run.questions.items (map answer_numbers answers.items)) }
{
    let bank = TraceClocks::new(setup.backstep);
    let mut answers = Vec::new(heap);
    replay(setup.settings, bank, store, run, &mut answers)?;
    Ok(answers)
}

// A kind of a trace's keys, which has its store: points a sorted run, tags a search tree.
pub trait StoredKey: TraceKey {
    // A row for each place.
    fn blank_rows(heap: Global) -> Result<Vec<Version<Self>>, AllocError>
        ensures { IfOk result (λ rows. length rows.items ≡ places) };

    // What a fresh recorder answers to a run.
    fn replay_run(
        heap: Global,
        setup: SetUp,
        run: Run<Self>,
    ) -> Result<Vec<Answer<Self>>, AllocError>
        ensures { IfOk result (λ answers. IsTraced Self.cmp (set_up_numbers setup)
            run.calls.items run.closes run.questions.items (map answer_numbers answers.items)) };
}

impl StoredKey for Point {
    ghost use Rattle.trace_replay.specs.Orders.{point_cmp};

    fn blank_rows(heap: Global) -> Result<Vec<Version<Point>>, AllocError> {
        rows_of(heap, blank(Point(0)))
    }

    fn replay_run(
        heap: Global,
        setup: SetUp,
        run: Run<Point>,
    ) -> Result<Vec<Answer<Point>>, AllocError>
        ensures { IfOk result (λ answers. IsTraced point_cmp (set_up_numbers setup)
            run.calls.items run.closes run.questions.items (map answer_numbers answers.items)) }
    {
        let mut places = [blank(Point(0)); PLACES];
        let store = SortedRun::new(&mut places).unwrap();
        let store = EmptyStore::new(store).unwrap();
        answers_to(heap, setup, store, run)
    }
}

impl StoredKey for Tag {
    ghost use Rattle.keys.specs.Tag.{tag_cmp};

    fn blank_rows(heap: Global) -> Result<Vec<Version<Tag>>, AllocError> {
        rows_of(heap, blank(any_tag()))
    }

    fn replay_run(heap: Global, setup: SetUp, run: Run<Tag>) -> Result<Vec<Answer<Tag>>, AllocError>
        ensures { IfOk result (λ answers. IsTraced tag_cmp (set_up_numbers setup)
            run.calls.items run.closes run.questions.items (map answer_numbers answers.items)) }
    {
        let mut nodes = [Node::new(blank(any_tag())); PLACES];
        let store = SearchTree::new(&mut nodes).unwrap();
        let store = EmptyStore::new(store).unwrap();
        answers_to(heap, setup, store, run)
    }
}
