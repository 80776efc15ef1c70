// A short run, held to the definitions that the contracts cite.
ghost use Rattle.std.specs.Prelude.{◌≡◌, true};
ghost use Rattle.run_laws.specs.Examples.{RunIsTold};

// Whether the history is told of that run what is written out.
pub fn run_is_told() -> bool
    ensures answer { result ≡ true }
    ensures told { RunIsTold }
{
    true
}
