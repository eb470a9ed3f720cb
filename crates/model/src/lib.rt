//! What an endpoint is: its state, its five calls, and what it keeps to over whole lists of calls.
#![tactic(auto)]

ghost use Rattle.std.specs.Prelude.{◌≡◌, ℕ, ◌<◌, List, length};
ghost use Rattle.model.specs.Records.{Id, Token, Datagram, Incoming};
ghost use Rattle.model.specs.Endpoint.{State, Config, Supply};
ghost use Rattle.model.specs.Runs.{Endpoint, Call};
ghost use Rattle.model.specs.Theorem.{EndpointLaws};
ghost use Rattle.model.specs.Cases.{CasesStand};
ghost use Rattle.model.specs.Rfc9000.{KeepsToRfc9000, RefusesByRfc9000};

/// Every endpoint that began new keeps to its laws, whatever calls it gets.
pub fn laws_stand() -> u8
    ensures { (E : Endpoint) (calls : List Call) → EndpointLaws E calls }
{
    0
}

/// Endpoints answer datagrams, and refuse attempts, as RFC 9000 asks.
pub fn rfc9000_stands() -> u8
    ensures handles { (c : Config) (u : Supply) (token : Id → Token) (s : State) (d : Datagram) (room : ℕ) → ((i : ℕ) → u.next_byte i < 256) → ((x : Id) → length (token x) ≡ 16) → KeepsToRfc9000 c u token s d room }
    ensures refuses { (c : Config) (u : Supply) (s : State) (a : Incoming) → RefusesByRfc9000 c u s a }
{
    0
}

/// The worked cases come out as they are stated.
pub fn cases_stand() -> u8
    ensures { CasesStand }
{
    0
}
