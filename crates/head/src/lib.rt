// What a card and a field record begin with: site, frame, byte 10, epoch, mark. Their shared checks 2 to 6.
#![tactic(auto)]

ghost use Rattle.std.specs.Prelude.{◌≡◌, ◌↔◌, IsTrue, EachIndex, slice_index};
ghost use Rattle.refusal.specs.Answered as A;
ghost use Rattle.refusal.specs.Refusal as R;
ghost use Rattle.head.specs.Head as K;

use frames::Frame;
use mark::Vec3;
use refusal::Refusal;

pub mod state;

// Quarter-days from 2000.0, on either side.
const EPOCH_MOST: u64 = 146100;

// Byte 5 is M or S, every other one a digit.
#[tactic(auto, unfolding(crate::specs::Head::shape_at, crate::specs::Head::digit))]
fn shape_at(i: usize, b: u8) -> bool
    ensures { result ≡ K.shape_at i b }
{
    if i == 5 {
        return b == b'M' || b == b'S';
    }
    b'0' <= b && b <= b'9'
}

// Nine bytes of site shape: five digits, M or S, three digits.
pub fn is_site(s: &[u8]) -> bool
    ensures { result ≡ K.site_shape s.now }
{
    s.len() == 9 && each_fits(s)
}

// Each byte is what a site has at its place.
fn each_fits(s: &[u8]) -> bool
    ensures { IsTrue result ↔ EachIndex s.now (λ i. IsTrue (K.shape_at i (slice_index s.now i))) }
{
    s.iter().enumerate().all(|(i, &b)| shape_at(i, b))
}

// Quarter-days from 2000.0, -146,100 to 146,100.
#[tactic(auto, unfolding(crate::specs::Head::epoch_fits))]
pub fn epoch_fits(e: i64) -> bool
    ensures { result ≡ K.epoch_fits e }
{
    numbers::magnitude(e) <= EPOCH_MOST
}

// The checks 2 to 6, which a card and a field record share: site, frame, byte 10 and the zero bytes, of which `fits` is the answer, epoch in
// quarter-days from 2000.0, mark in metres.
pub fn check_head(
    site: [u8; 9],
    frame: u8,
    fits: bool,
    epoch: i64,
    mark: Vec3,
) -> Result<(), Refusal>
    ensures { A.number result ≡ R.first (K.head_checks site frame fits epoch mark) }
{
    if !is_site(&site) {
        return Err(Refusal::Site);
    }
    Frame::try_from(u32::from(frame))?;
    if !fits {
        return Err(Refusal::TideByte);
    }
    if !epoch_fits(epoch) {
        return Err(Refusal::Epoch);
    }
    mark::check_mark(mark)
}
