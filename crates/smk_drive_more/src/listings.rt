//! The listings of now.

ghost use Rattle.std.specs.Prelude.{◌≡◌, IfErr, IfOk};
ghost use Rattle.smk_report.specs.declared.fault.Fault.TheVariants as fault;
ghost use Rattle.smk_laws_turns.specs.Growing.{lists_now};

use smk_base::List;
use smk_chain::Listings;
use smk_plan_live::LivePlan;
use smk_plan_preview::add_listings;
use smk_report::Fault;
use std::alloc::Global;

/// The listings of the kept plan, and those that have become known besides.
pub(crate) fn listings_now(alloc: Global, live: &LivePlan) -> Result<Listings, Fault>
    ensures ok { IfOk result (λ l. l ≡ lists_now live.now) }
    ensures err { IfErr result (λ f. f ≡ fault.OutOfMemory) }
{
    let mut lists = List::new(alloc);
    add_listings(alloc, &mut lists, &live.jobs().lists)?;
    add_listings(alloc, &mut lists, live.known())?;
    Ok(lists)
}
