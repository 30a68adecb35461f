// Byte 10 of a card: its tide state (0 neither tide, 1 mean tide, 2 solid tide), and the byte with another state.
ghost use Rattle.std.specs.Prelude.{◌≡◌};
ghost use Rattle.head.specs.State as S;

// The tide state of a byte 10.
#[tactic(auto, unfolding(crate::specs::State::state_of))]
pub fn state_of(byte: u8) -> u8
    ensures { result ≡ S.state_of byte }
{
    byte
}

// The byte with another state. What else it holds stays: today, nothing.
#[tactic(auto, unfolding(crate::specs::State::with_state))]
pub fn with_state(byte: u8, state: u8) -> u8
    ensures { result ≡ S.with_state byte state }
{
    state
}
