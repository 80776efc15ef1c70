// Keys, as a sheet prints them.
ghost use Rattle.std.specs.Prelude.{◌≡◌, ◌++◌, ℕ, List, OnOk, string_bytes};

use keys::point::Point;
use keys::tag::Tag;
use std::alloc::AllocError;
use trace_replay::stores::StoredKey;

// A kind of keys that have names: a point's is its number.
pub trait NamedKey: StoredKey {
    ghost name: { Self → List ℕ };

    fn add_name(self, text: &mut String) -> Result<(), AllocError>
        ensures { OnOk result (string_bytes text.new ≡ string_bytes text.old ++ name self) };
}

impl NamedKey for Point {
    ghost use Rattle.sheet_lines.specs.Names.{point_name};

    ghost name = { point_name };

    fn add_name(self, text: &mut String) -> Result<(), AllocError> {
        write!(text, "{}", self.number())
    }
}

impl NamedKey for Tag {
    ghost use Rattle.sheet_lines.specs.Names.{tag_name};

    ghost name = { tag_name };

    fn add_name(self, text: &mut String) -> Result<(), AllocError> {
        write!(text, "{self}")
    }
}
