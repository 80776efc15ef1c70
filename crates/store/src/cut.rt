// The cut: a page of the store, in the caller's rows.
ghost use Rattle.std.specs.Prelude.{◌≡◌, ◌≤◌, length};
ghost use Rattle.refusals.specs.Refusals.{shown};
ghost use Rattle.store.specs.Page.{IsOnlyPage, after_cut, count_within, cut_answer, page};

use crate::listable::Listable;
use crate::version::Version;
use keys::kind::KeyKind;
use refusals::refusal::Refusal;

// Writes, for each key that has a version at or below the stamp, the newest of them into the rows, in order of the keys, and
// answers how many. Refused with 19 where there are fewer places, and then none changes; the places behind the last row stay.
pub fn cut<K: KeyKind, S: Listable<K>>(
    store: &S,
    stamp: u64,
    rows: &mut [Version<K>],
) -> Result<usize, Refusal>
    ensures answer { shown result
        ≡ cut_answer (page K.cmp (S.contents store.now).versions stamp) (length rows.old) }
    ensures rows { rows.new ≡ after_cut (page K.cmp (S.contents store.now).versions stamp) rows.old }
    ensures in_words { IsOnlyPage K.cmp (S.contents store.now).versions stamp
        (page K.cmp (S.contents store.now).versions stamp) }
{
    let Some(count) = row_count(store, stamp, rows.len()) else {
        return Err(Refusal::NoRoom);
    };
    write_rows(store, stamp, rows);
    Ok(count)
}

// How many rows the page has, or none if they are more than the places.
fn row_count<K: KeyKind, S: Listable<K>>(store: &S, stamp: u64, places: usize) -> Option<usize>
    ensures count { result ≡ count_within (page K.cmp (S.contents store.now).versions stamp) places }
    ensures in_words { IsOnlyPage K.cmp (S.contents store.now).versions stamp
        (page K.cmp (S.contents store.now).versions stamp) }
{
    let mut count = 0;
    let mut next = store.first_key();
    while let Some(key) = next {
        if store.at(key, stamp).is_some() {
            if count == places {
                return None;
            }
            count += 1;
        }
        next = store.next_key(key);
    }
    Some(count)
}

fn write_rows<K: KeyKind, S: Listable<K>>(store: &S, stamp: u64, rows: &mut [Version<K>])
    requires room { length (page K.cmp (S.contents store.now).versions stamp) ≤ length rows.old }
    ensures { rows.new ≡ after_cut (page K.cmp (S.contents store.now).versions stamp) rows.old }
{
    let mut count = 0;
    let mut next = store.first_key();
    while let Some(key) = next {
        if let Some(newest) = store.at(key, stamp) {
            rows[count] = newest;
            count += 1;
        }
        next = store.next_key(key);
    }
}
