// The calls on a sheet.
ghost use Rattle.std.specs.Prelude.{◌≡◌, ◌&&◌, take, if◌then◌else◌, Ok, Err};
ghost use Rattle.sheet.specs.Calls.{enter, note, see, ask};
ghost use Rattle.sheet.specs.Frame.{Keeps, RefusedUnchanged};
ghost use Rattle.sheet.specs.State.{on};
ghost use Rattle.sheet.specs.Step.{Step, LooksAt};
ghost use Rattle.sheet.specs.View.{view, entering, asking};
ghost use Rattle.sheet.specs.declared.refusal.Refusal.TheVariants.{OffSheet};

use crate::refusal::Refusal;
use crate::sheet::Sheet;
use kind::Kind;
use table::{Answer, NodeOf};

impl<K: Kind> Sheet<'_, K> {
    // The points in use.
    fn table(&self) -> &[NodeOf<K>]
        ensures { result.now ≡ take 256 self.now.nodes.now }
    {
        self.nodes.get(..256).unwrap_or(self.nodes)
    }

    // Refuses a point that is not on the sheet.
    fn check(&self, x: u8) -> Result<(), Refusal>
        ensures { result ≡ (if on (view self.now) x then Ok tt else Err OffSheet) }
    {
        if usize::from(x) < self.table().len() {
            Ok(())
        } else {
            Err(Refusal::OffSheet)
        }
    }

    fn check_both(&self, x: u8, y: u8) -> Result<(), Refusal>
        ensures { result ≡ (if on (view self.now) x && on (view self.now) y then Ok tt else Err OffSheet) }
    {
        self.check(x).and(self.check(y))
    }

    // Notes that the value of x is g applied to the value of y. Three arguments, here and in
    // `ask`: `note(Comparison { x, y, relation: g })` is no plainer for a builder.
    pub fn note(&mut self, x: u8, y: u8, g: K::Relation) -> Result<(), Refusal>
        ensures step { Step K.Kind (view self.old) (enter (note x y g)) (entering result) (view self.new) }
        ensures unchanged { RefusedUnchanged result self.old self.new }
        ensures keeps { Keeps self.old self.new }
    {
        self.check_both(x, y)?;
        let meeting = table::meet::<K>(self.table(), x, y, g);
        if table::is_empty::<K>(meeting.left) {
            return Err(Refusal::Contrary);
        }
        table::join::<K>(self.nodes, meeting);
        Ok(())
    }

    // Notes that the value of x belongs to s.
    pub fn see(&mut self, x: u8, s: K::Set) -> Result<(), Refusal>
        ensures step { Step K.Kind (view self.old) (enter (see x s)) (entering result) (view self.new) }
        ensures unchanged { RefusedUnchanged result self.old self.new }
        ensures keeps { Keeps self.old self.new }
    {
        self.check(x)?;
        let narrowing = table::narrow::<K>(self.table(), x, s);
        if table::is_empty::<K>(narrowing.left) {
            return Err(Refusal::Contrary);
        }
        table::settle::<K>(self.nodes, narrowing.reference, narrowing.left);
        Ok(())
    }

    // Asks whether the value of x is g applied to the value of y.
    pub fn ask(&self, x: u8, y: u8, g: K::Relation) -> Result<Answer, Refusal>
        ensures { Step K.Kind (view self.now) (ask x y g) (asking result) (view self.now) }
    {
        self.check_both(x, y)?;
        Ok(table::ask::<K>(self.table(), x, y, g))
    }

    // The set of values that x may still have.
    pub fn look(&self, x: u8) -> Result<K::Set, Refusal>
        ensures { LooksAt K.Kind (view self.now) x result }
    {
        self.check(x)?;
        Ok(table::look::<K>(self.table(), x))
    }
}
