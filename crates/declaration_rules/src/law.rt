//! What is asked of expressions says what the definitions say of them.

ghost use Rattle.std.specs.Prelude.{◌≡◌, Bool, List, map, ℕ, Option, Some};
ghost use Rattle.fortran_tree.specs.Expressions as f;
ghost use Rattle.fortran_tree.specs.Statements as d;
ghost use Rattle.rule_definitions.specs.Names.{KnownBounds, Scope};
ghost use Rattle.rule_definitions.specs.Judgements.{made_of};
ghost use Rattle.checked_tree.specs.declared.data.DataType.{DataType};
ghost use Rattle.declaration_rules.specs.Initials.{initial_asked};
ghost use Rattle.rule_definitions.specs.Declarations.{Attributes, Unit', bounds_value, declared_kind, initial_judged, is_named_constant, raw_breaks, cobounds_value, dimensions_breaks, dimensions_known, raw_dimensions_breaks};
ghost use Rattle.declaration_rules.specs.Asked.{asked_of};
ghost use Rattle.declaration_rules.specs.Bounds.{cobounds_asked, bounds_asked, bounds_asked_of, kind_asked, kinds_of, maybe_asked_of};
ghost use Rattle.declaration_rules.specs.Shapes.{dimension_asked_of, dimensions_asked, known_dimension, raw_asked, raw_dimensions_asked};
ghost use Rattle.declaration_rules.specs.declared.kind.KindOf.{KindOf};

/// Bounds of a scope, by what is asked of their expressions.
pub fn law_bounds()
    ensures { (s : Scope) (b : d.Bounds) → bounds_asked (bounds_asked_of s b) ≡ bounds_value s b }
{}

/// A kind of a scope, by what is asked of its expression.
pub fn law_kind()
    ensures { (s : Scope) (k : KindOf) (e : f.Expression) → kind_asked k (asked_of s e) ≡ declared_kind s (kinds_of k) e }
{}

/// What breaks in an expression alone.
pub fn law_raw()
    ensures { (s : Scope) (o : Option f.Expression) → raw_asked (maybe_asked_of s o) ≡ raw_breaks s o }
{}

/// An initial value of a scope, by what is asked of its expression.
pub fn law_initial()
    ensures { (s : Scope) (u : Unit') (a : Attributes) (n : List ℕ) (y : Option DataType) (ds : List KnownBounds) (e : f.Expression) → made_of Some (initial_asked u (is_named_constant u a n) a.is_allocatable y ds (asked_of s e)) ≡ initial_judged s u a n y ds (Some e) }
{}

/// Cobounds of a scope, by what is asked of their expressions.
pub fn law_cobounds()
    ensures { (s : Scope) (b : d.Bounds) → cobounds_asked (bounds_asked_of s b) ≡ cobounds_value s b }
{}

/// The dimensions of an entity in a scope, by what is asked of their expressions: what breaks in these alone, the
/// rules, and the bounds that are known.
pub fn law_dimensions()
    ensures raw { (s : Scope) (ds : List d.Dimension) → raw_dimensions_asked (map (dimension_asked_of s) ds) ≡ raw_dimensions_breaks s ds }
    ensures breaks { (s : Scope) (a : Bool) (ds : List d.Dimension) → dimensions_asked a (map (dimension_asked_of s) ds) ≡ dimensions_breaks s a ds }
    ensures known { (s : Scope) (a : Bool) (ds : List d.Dimension) → map (known_dimension a) (map (dimension_asked_of s) ds) ≡ dimensions_known s a ds }
{}
