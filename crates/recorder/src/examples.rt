// The worked examples, held to the definitions that the contracts cite.
ghost use Rattle.std.specs.Prelude.{◌≡◌, true};
ghost use Rattle.recorder.specs.Examples.{Examples};

// Whether the rules and the clocks give what the worked examples say.
pub fn examples_hold() -> bool
    ensures answer { result ≡ true }
    ensures examples { Examples }
{
    true
}
