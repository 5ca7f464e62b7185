// A product that is handed back.
use judging::faults::Refusal;

/// A product that could not be closed or reopened, unchanged, and why.
#[derive(Drop)]
pub struct Kept<P> {
    pub product: P,
    pub refusal: Refusal,
}
