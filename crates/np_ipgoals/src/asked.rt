//! What the rules of a network say of the least headers, found once for all of its goals.

use np_auth::Passages;
use np_conf::Outlets;

/// What the rules of a network say of the least headers, as far as its goals ask for it.
#[derive(Drop)]
pub struct Findings {
    /// There where some goal is on authentication.
    pub passages: Option<Passages>,
    /// There where some goal is on confidentiality.
    pub outlets: Option<Outlets>,
}
