// The relation of two references that a note about two points comes to.
ghost use Rattle.std.specs.Prelude.{◌≡◌};
ghost use Rattle.table.specs.Note.{combined};

use kind::Kind;

// c1 and c2 are the walks of the two points, and g is noted of these.
pub fn combine<K: Kind>(c1: K::Relation, g: K::Relation, c2: K::Relation) -> K::Relation
    ensures { K.Kind.word result ≡ K.Kind.word (combined K.Kind c1 g c2) }
{
    K::after(K::after(K::inverse(c1), g), c2)
}
