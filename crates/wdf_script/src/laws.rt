//! Laws of scripts, over their definition. Each is the contract of a function that does nothing.
ghost use Rattle.std.specs.Prelude.{◌≡◌, ◌↔◌, ◌<◌, ℕ, IsTrue, IsSome, Some, slice_get};
ghost use Rattle.wdf_base.specs.declared.plan.Plan.{Plan};
ghost use Rattle.wdf_base.specs.declared.frame.Frame.{Frame};
ghost use Rattle.wdf_base.specs.declared.frame.Intent.TheVariants.{Broken};
ghost use Rattle.wdf_base.specs.declared.script.ExprNode.{ExprNode};
ghost use Rattle.wdf_base.specs.declared.script.ExprNode.TheVariants.{Binary};
ghost use Rattle.wdf_base.specs.declared.script.Operator.{Operator};
ghost use Rattle.wdf_model.specs.rules.Script as script;
ghost use Rattle.wdf_script.specs.Errors.{is_atom, script_error};

/// An operator's value is what it makes of the values of its operands.
#[tactic(auto, using(crate::proofs::Values::operator_of_operands))]
pub fn operator_of_operands()
    ensures { (plan : Plan) (frame : Frame) (e left right : ℕ) (operator : Operator)
        → slice_get plan.exprs e ≡ Some (Binary operator left right) → left < e → right < e
        → script.value_of plan frame e ≡ script.operands_by operator (script.value_of plan frame left) (script.value_of plan frame right) }
{}

/// An atom has a value in every frame.
#[tactic(auto, using(crate::proofs::Values::atom_has_value))]
pub fn atom_has_value()
    ensures { (plan : Plan) (frame : Frame) (e : ℕ) (node : ExprNode)
        → slice_get plan.exprs e ≡ Some node → IsTrue (is_atom node) → IsSome (script.value_of plan frame e) }
{}

/// What a frame is about to do is broken exactly where its statement has a script error; a call has none.
#[tactic(auto, using(crate::proofs::Broken::broken_exactly))]
pub fn broken_exactly()
    ensures { (plan : Plan) (frame : Frame)
        → (script.intent_of plan frame ≡ Broken) ↔ IsTrue (script_error plan frame (script.statement_at plan frame)) }
{}
