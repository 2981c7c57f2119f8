// The rules of a sheet, and the theorem on every succession of calls.
#![tactic(auto)]

ghost use Rattle.std.specs.Prelude.{ℕ, ◌≤◌, length};
ghost use Rattle.rules.specs.Calls.{Call, Outcome};
ghost use Rattle.rules.specs.Listing.{bound_of};
ghost use Rattle.rules.specs.Reached.{Step, WhateverFollows, Makes, Bounded};
ghost use Rattle.rules.specs.State.{State, new_sheet};

use kind::Kind;

// The theorem, for every lawful kind. No sheet calls by these rules yet; here they are proved where they are stated.
pub fn rules_hold<K: Kind>()
    ensures follows { (n number room : ℕ) → n ≤ 256 → WhateverFollows K.Kind n number room (new_sheet K.Kind number n room) }
    ensures makes { (s : State K.Relation K.Set) (c : Call K.Relation K.Set) (o : Outcome) (s' : State K.Relation K.Set) → Step K.Kind s c o s' → Makes K.Kind s c o s' }
    ensures bounded { (s : State K.Relation K.Set) → Bounded K.Kind s (bound_of K.Kind (length s.table)) }
{}
