//! Laws of the definitions. The functions do nothing: what each says is its contract.

ghost use Rattle.rec_bytes.specs.declared.damage.Damage.{Damage};
ghost use Rattle.rec_bytes.specs.declared.shape.Shape.{Shape};
ghost use Rattle.store_rules.specs.Breaking.{Breaks, BreaksAny};
ghost use Rattle.store_rules.specs.Indexes.{IsIndexed};
ghost use Rattle.store_rules.specs.Rules.{IsWellFormed};
ghost use Rattle.store_rules.specs.Views.{Records};

/// No record of a store that keeps the rules breaks one. So a call that names a record only where
/// it breaks a rule names none over such a store.
pub fn blames_nobody()
    ensures seven { (records : Records) (shape : Shape) → IsWellFormed records shape
        → (d : Damage) → ¬ Breaks records shape d }
    ensures eight { (records : Records) (shape : Shape) → IsIndexed records shape
        → (d : Damage) → ¬ BreaksAny records shape d }
{}
