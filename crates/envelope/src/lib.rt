// What an envelope's numbers allow, for reader and writer alike.
#![tactic(auto)]

ghost use Rattle.std.specs.Prelude.{◌≡◌};
ghost use Rattle.rules.specs.Envelope.{claimable};

// May unknown content of so many bytes claim so many handles? A handle takes four bytes (35; the writer's 26). In line the payload is
// four bytes.
pub fn can_claim(payload: u64, handles: u64) -> bool
    ensures { result ≡ claimable payload handles }
{
    handles <= payload / 4
}
