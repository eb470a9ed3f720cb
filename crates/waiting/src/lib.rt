//! What the datagrams in order of arrival say of the waiting attempts. It has theorems alone.
#![tactic(auto)]

ghost use Rattle.waiting.specs.Laws.{Adds, AddsProper, Keeps, KeepsProper, Totals, Parts, PlacesUsed, Counts, Finds};

/// The laws that tie the datagrams in order of arrival to the waiting attempts.
pub fn groups_stand() -> u8
    ensures adds { Adds }
    ensures proper { AddsProper }
    ensures keeps { Keeps }
    ensures kept { KeepsProper }
    ensures totals { Totals }
    ensures parts { Parts }
    ensures places { PlacesUsed }
    ensures counts { Counts }
    ensures finds { Finds }
{
    0
}
