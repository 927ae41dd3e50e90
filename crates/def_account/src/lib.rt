//! The account of an accepted script: what each of its sessions reports there.
//!
//! Depends on def_term, def_script, def_run and def_explain. Promises, as laws, that an accepted script creates each of
//! its sessions once, and that what a session reports in the account of any run of it is that session's listing.
//! There is no code.
#![tactic(auto)]

ghost use Rattle.def_account.specs.Laws.{EachSessionIsCreatedOnce, EachAccountIsTheListing};

use def_explain::an_account_tells_the_listing;

/// An accepted script creates each of its sessions once; so what a session reports in the account of a run is its
/// listing, whatever the picks are.
pub fn an_account_has_each_listing()
    ensures once { EachSessionIsCreatedOnce }
    ensures listed { EachAccountIsTheListing }
{
    an_account_tells_the_listing();
}
