//! Laws of the walk, in the words of the standard. Each is the contract of a function that does nothing.

ghost use Rattle.std.specs.Prelude.{◌≡◌, ℕ, ℤ, true, false, List, [], ◌∷◌, Some, min};
ghost use Rattle.trace_theory.specs.Machines.{goes, asks, Comes, ComesToRest};
ghost use Rattle.caf_base.specs.declared.value.Kind.{Kind};
ghost use Rattle.caf_events.specs.declared.ask.Ask.TheVariants.{ErrorStop};
ghost use Rattle.walk_theory.specs.Syntax.{Steps};
ghost use Rattle.walk_theory.specs.Walks.{Config, Task, to, at_parts, step};
ghost use Rattle.walk_theory.specs.Evaluation.{leaves, outcome};
ghost use Rattle.walk_theory.specs.Iterations.{IsCounted};
ghost use Rattle.checked_tree.specs.declared.data.Local.{Local};
ghost use Rattle.checked_tree.specs.Expressions as t;
ghost use Rattle.checked_tree.specs.Statements as checked;
ghost use Rattle.caf_base.specs.Arithmetic.{iterations};
ghost use Rattle.image_acts.specs.Statuses.{most_iterations};
ghost use Rattle.image_acts.specs.Acts.{Act, Scope, here, variable, begin_iterations};
ghost use Rattle.image_acts.specs.Core.{Core, pushed};
ghost use Rattle.image_acts.specs.Frames.{cell_in, with_cell};
ghost use Rattle.image_acts.specs.Meaning.{image_language};
ghost use Rattle.tree_meaning.specs.Sequences.{doing};
ghost use Rattle.tree_meaning.specs.Environment.{Environment, scope_of};
ghost use Rattle.tree_meaning.specs.Expressions.{expression};
ghost use Rattle.tree_meaning.specs.Settling.{is_accepted, settling};
ghost use Rattle.tree_meaning.specs.Values.{variables, value_of, Leaves};
ghost use Rattle.tree_meaning.specs.DoLoops.{iterations_left, do_loop};
ghost use Rattle.tree_meaning.specs.Start.{walk_step};

/// Each configuration of a program's walk comes to an ask or ends, whatever it has computed: between two asks an image
/// does finitely much.
pub fn law_walk_comes_to_an_ask_or_ends()
    ensures { (p : checked.Program) (limit : ℕ) (c : Config Act Core) → ComesToRest (walk_step p limit) c }
{}

/// A DO construct's loop has an iteration count (ISO/IEC 1539-1:2018, 11.1.7.4): its body is begun where an iteration
/// is left, and each iteration takes one away.
pub fn law_do_is_counted()
    ensures { (l : ℕ) (s : Scope) (x t : ℕ) (k : Kind) (body : Steps Act) → IsCounted image_language (iterations_left t) (do_loop l s x t k body) }
{}

/// It begins with the count that first value, last value and step give (11.1.7.4.1).
pub fn law_do_begins()
    ensures { (s : Scope) (x t : ℕ) (first last step u : ℤ) (c d : Core) → cell_in here t c ≡ Some u
        → outcome image_language (doing (variable (begin_iterations s x t) ∷ [])) (pushed step (pushed last (pushed first c))) ≡ leaves d
        → iterations_left t d ≡ Some (min (iterations first last step) most_iterations) }
{}

/// An expression of numbers, scalar variables and operators leaves its value, or its first fault, operands from left to
/// right (10.1.4). What its value is says a recursion over the tree.
pub fn law_expression_leaves_its_value()
    ensures { (e : Environment) (x : t.Expression) (c : Core) → Leaves (value_of x (variables c)) c (outcome image_language (expression e x) c) }
{}

/// Without STAT= an image control statement goes on with the status 0 and with those that it accepts, and any other
/// starts error termination with the status as its code (11.6.11).
pub fn law_status_without_stat()
    ensures accepted { (procedures : ℕ → Steps Act) (limit : ℕ) (accepted : List ℤ) (status : ℤ) (c : Core) (l n depth : ℕ) (ts : List (Task Act)) → is_accepted accepted status ≡ true
        → Comes (step image_language procedures limit) (at_parts l (settling t.no_result depth accepted) ts (pushed status c) n) (goes (to ts c n)) }
    ensures other { (procedures : ℕ → Steps Act) (limit : ℕ) (accepted : List ℤ) (status : ℤ) (c : Core) (l n depth : ℕ) (ts : List (Task Act)) → is_accepted accepted status ≡ false
        → Comes (step image_language procedures limit) (at_parts l (settling t.no_result depth accepted) ts (pushed status c) n) (asks (ErrorStop status) l (λ r. to [] (pushed status c) n)) }
{}

/// With STAT= a scalar variable the image goes on with every status, and the variable gets it.
pub fn law_status_with_stat()
    ensures { (v : Local) (k : Kind) (accepted : List ℤ) (status : ℤ) (c : Core) (depth : ℕ)
        → outcome image_language (settling (t.result (t.result_variable v t.no_expressions k)) depth accepted) (pushed status c) ≡ leaves (with_cell (scope_of v.home) v.variable status c) }
{}
