// Kinds of keys.
ghost use Rattle.keys.specs.Order.{IsKeyOrder};

// A kind of key: keys in an order, `cmp`, that tells any two apart.
pub trait KeyKind: Copy + Ord {
    ghost law: { IsKeyOrder Self.cmp };
}
