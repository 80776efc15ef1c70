// Stamps to codes and back. `code` says what the number is. `from_code` answers none, as `char::from_u32` does: a code
// that has no stamp is no refusal, and `TryFrom` would want an error for it.
ghost use Rattle.std.specs.Prelude.{◌≡◌, ◌==◌, IfSome, Some};
ghost use Rattle.std.specs.Option.{option_map};
ghost use Rattle.std.specs.Ordering.{nat_cmp, on};
ghost use Rattle.stamps.specs.declared.stamp.Stamp.{Stamp};
ghost use Rattle.stamps.specs.Stamp.{stamp_code, stamp_of, stamp_with_code, zero_stamp};

use crate::stamp::Stamp;

// How many counters there are.
const COUNTERS: u64 = 65_536;

impl Stamp {
    // The last stamp of a node that has none.
    pub fn zero() -> Stamp
        ensures { stamp_of result ≡ zero_stamp }
    {
        Stamp {
            time: 0,
            counter: 0,
        }
    }

    // The stamp as one number. It is the code of no other stamp, and stamps compare as their codes.
    pub fn code(self) -> u64
        ensures code { result ≡ stamp_code self }
        ensures back { stamp_with_code result ≡ Some (stamp_of self) }
        ensures equality { (other : Stamp) → ⟦<Stamp as PartialEq>⟧.eq self other ≡ (result == stamp_code other) }
        ensures order { (other : Stamp) → ⟦<Stamp as Ord>⟧.cmp self other ≡ nat_cmp result (stamp_code other) }
        ensures partial_order { (other : Stamp) → ⟦<Stamp as PartialOrd>⟧.partial_cmp self other
            ≡ Some (nat_cmp result (stamp_code other)) }
        ensures codes_order { ⟦<Stamp as Ord>⟧.cmp ≡ on stamp_code nat_cmp }
    {
        self.time * COUNTERS + u64::from(self.counter)
    }

    // The stamp that has this code: none for 1 to 65535, whose time would be 0.
    pub fn from_code(code: u64) -> Option<Stamp>
        ensures stamp { option_map stamp_of result ≡ stamp_with_code code }
        ensures back { IfSome result (λ stamp. stamp_code stamp ≡ code) }
    {
        if code > 0 && code < COUNTERS {
            return None;
        }
        Some(Stamp {
            time: code / COUNTERS,
            counter: (code % COUNTERS) as u16,
        })
    }
}
