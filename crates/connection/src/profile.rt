// Opening under the field-station profile (document 02's term).
ghost use Rattle.std.specs.Prelude.{◌≡◌, IfOk};
ghost use Rattle.connection.specs.Record.{Sound};
ghost use Rattle.connection.specs.Opening.{opening_from};
ghost use Rattle.connection.specs.Profile.{shown_profile, under_profile};

use super::{Opened, ProfileRefusal, Setup, opening};
use segment::Segment;

// E10, E11, then E17, by both sides' offers as they were written and by the MSS that the record keeps.
#[tactic(auto, using(crate::proofs::Exits::under_lacking, crate::proofs::Exits::under_met), unfolding(crate::specs::Profile::under_profile))]
pub fn open_from(own: Setup, clock: u64, syn: &Segment) -> Result<Opened, ProfileRefusal>
    ensures answer { shown_profile result ≡ under_profile own.offers (opening_from own clock syn.now) syn.now }
    ensures sound { IfOk result (λ opened. Sound opened.connection) }
{
    let opened = opening::open_from(own, clock, syn)?;
    let peer = opening::peer_offers(syn);
    let mss = opening::mss(syn.options.mss);
    field_station::judge(own.offers, peer, mss)?;
    Ok(opened)
}
