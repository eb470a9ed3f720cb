ghost use Rattle.std.specs.Prelude.{◌≡◌, ℕ, ◌+◌, ◌-◌, ◌<◌, ◌≤◌, ◌^◌, length, take, sum_by, count_by, filter};
ghost use Rattle.std.specs.List.{find};
ghost use Rattle.std.specs.Option.{option_map};
ghost use Rattle.std.specs.List.Sorted.{IsPermutation};
ghost use Rattle.places.specs.Entries.{place_weight, place_of, place_other, place_leads};

use crate::record::Place;
use records::packet::Datagram;

/// The bytes of the places that hold no first datagram.
pub fn total_in(items: &[Place]) -> u64
    requires { sum_by place_weight items.now < 2 ^ 64 }
    ensures { result ≡ sum_by place_weight items.now }
{
    items.iter().map(Place::weight).sum()
}

/// The same of one attempt.
// A function of its own: one with a test would ask each caller for clauses of a closure.
pub fn bytes_in(items: &[Place], slot: u32) -> u64
    requires { sum_by place_weight (filter (place_of slot) items.now) < 2 ^ 64 }
    ensures { result ≡ sum_by place_weight (filter (place_of slot) items.now) }
{
    items
        .iter()
        .filter(|p| p.is_of(slot))
        .map(Place::weight)
        .sum()
}

/// How many places hold a first datagram.
pub fn attempts_in(items: &[Place]) -> usize
    ensures { result ≡ count_by (λ p. p.first) items.now }
{
    items.iter().filter(|p| p.first).count()
}

/// The first datagram of the attempt in a slot.
pub fn find_in(items: &[Place], slot: u32) -> Option<Datagram>
    ensures { result ≡ option_map (λ p. p.kept.datagram) (find (place_leads slot) items.now) }
{
    items
        .iter()
        .find(|p| p.is_of(slot) && p.first)
        .map(|p| p.kept.datagram)
}
