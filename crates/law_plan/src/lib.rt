//! What the plan of a text is: written out again with names in place of the numbers of names, it is the lines of
//! the text. The functions do nothing: their contracts are the laws. `specs/WrittenOut.antt` has a line form for
//! each item of a plan, and `specs/Told.antt` says which lines of the scene these are.
//!
//! # Choices
//!
//! - **How is it said that each number of a plan is that of the name that was written?** A plan is written out again.
//!   `crates/law_plan/specs/WrittenOut.antt` has one line form for each item, with the name of the thing in place of
//!   its number. A law says that these are the lines of the text. An object is written by its id, a register, a class
//!   and a variable by its number. A number of nothing is written as `driver` or as an empty text, which no line can
//!   have as a name.
#![tactic(auto)]

ghost use Rattle.std.specs.Prelude.{◌≡◌, ◌∷◌, None, Some, codes, drop, map, take};
ghost use Rattle.std.specs.List.{flat_map};
ghost use Rattle.wdf_base.specs.declared.declared.RegisterInfo.{RegisterInfo};
ghost use Rattle.wdf_scene.specs.declared.scene.Scene.{Scene};
ghost use Rattle.wdf_scene.specs.Written.{IsScene};
ghost use Rattle.wdf_refusals.specs.First.{first_refusal};
ghost use Rattle.wdf_blocks.specs.Forms.{is_class, is_object, is_register};
ghost use Rattle.wdf_blocks.specs.Placed.{placed};
ghost use Rattle.wdf_plan.specs.Plans.{plan_of};
ghost use Rattle.law_plan.specs.Fitting.{NumbersFit};
ghost use Rattle.law_plan.specs.Told.{AreAgentsTold, AreNodesTold, AreObjectsGiven, device_in, Each, forms_that, is_ask, is_on, is_when, IsCallbackTold, IsClassGiven, IsInDevice, IsPeriodTold, lines_that, names_declared, Paired, placed_that};
ghost use Rattle.law_plan.specs.WrittenOut as written;

/// The names of a plan are `driver`, `req`, and the names that the lines declare, in the order of the text.
pub fn names_are_those_declared()
    ensures { (scene : Scene) → (plan_of scene).names ≡ codes "driver" ∷ codes "req" ∷ names_declared scene.lines }
{}

/// The first three lines are `cpus`, `limit` and `objects`, with the plan's numbers.
pub fn heads_are_written()
    ensures { (scene : Scene) → IsScene scene → written.head_lines (plan_of scene) ≡ take 3 (map (λ l. l.form) scene.lines) }
{}

/// Of a scene in which nothing is refused: the objects of the plan after the driver object, its classes and its
/// registers are those of the lines that declare them. They are in the order of the text, each as its line declares it. A
/// class names its parent.
pub fn declarations_are_written()
    ensures objects { (scene : Scene) → first_refusal scene ≡ None → map (written.object_line (plan_of scene)) (plan_of scene).declared ≡ None ∷ map Some (forms_that is_object scene.lines) }
    ensures classes { (scene : Scene) → first_refusal scene ≡ None → map (written.class_line (plan_of scene)) (plan_of scene).classes ≡ forms_that is_class scene.lines }
    ensures registers { (scene : Scene) → first_refusal scene ≡ None → map (written.register_line (plan_of scene)) (plan_of scene).registers ≡ forms_that is_register scene.lines }
{}

/// Of a scene that stands for a text, and in which nothing is refused: each queue, interrupt and target of the plan,
/// and each register, is of the device in whose block its line is.
pub fn devices_are_those_of_the_blocks()
    ensures objects { (scene : Scene) → IsScene scene → first_refusal scene ≡ None
        → Paired (λ p d. IsInDevice (plan_of scene) scene p (device_in d)) (placed_that is_object scene) (drop 1 (plan_of scene).declared) }
    ensures registers { (scene : Scene) → IsScene scene → first_refusal scene ≡ None
        → Paired (λ p (r : RegisterInfo). IsInDevice (plan_of scene) scene p (Some r.device)) (placed_that is_register scene) (plan_of scene).registers }
{}

/// Each device and each queue of the plan has the scope and the level that its block gives it, else its device's, else
/// the `driver` block's, else none and DISPATCH_LEVEL. A queue takes the types of requests that its block says, is
/// power-managed but where its block says `power off`, and takes lengths of 0 where it says so. A dpc, timer or workitem class is
/// serialized where its block says so.
pub fn attributes_are_those_of_the_blocks()
    ensures objects { (scene : Scene) → Paired (AreObjectsGiven scene) (placed_that is_object scene) (drop 1 (plan_of scene).declared) }
    ensures classes { (scene : Scene) → Paired (IsClassGiven scene) (placed_that is_class scene) (plan_of scene).classes }
{}

/// Of a scene that stands for a text: a dpc, timer or workitem class of the plan has the period that the block of its
/// line gives. It is the number of the first `period` line in the block, or 0 where there is none.
pub fn periods_are_written()
    ensures { (scene : Scene) → IsScene scene → Paired (IsPeriodTold scene) (placed_that is_class scene) (plan_of scene).classes }
{}

/// Of a scene in which nothing is refused: the `when` lines of the plan, and what its Plug and Play manager posts,
/// are the text's lines of these forms. They are in the order of the text, each with its number, its names and its
/// numbers.
pub fn whens_and_asks_are_written()
    ensures whens { (scene : Scene) → first_refusal scene ≡ None → map (written.when_line (plan_of scene)) (plan_of scene).whens ≡ lines_that is_when scene.lines }
    ensures asks { (scene : Scene) → first_refusal scene ≡ None → map (written.post_line (plan_of scene)) (plan_of scene).pnp ≡ map Some (lines_that is_ask scene.lines) }
{}

/// Of a scene that stands for a text, and in which nothing is refused: the agents of the plan are the apps, then the
/// devices, then the targets of the lines. Each sort is in the order of its lines, with their names. An app or a device
/// posts what the lines with `at` in its block say. A target posts by no line.
pub fn agents_are_written()
    ensures { (scene : Scene) → IsScene scene → first_refusal scene ≡ None → AreAgentsTold (plan_of scene) scene }
{}

/// Of such a scene: the callbacks of the plan are those of the `on` lines, in their order. Each is on what the block
/// around its line declares. Its statements are the statement lines of its own block, in their order, with their
/// variables, registers, classes and expressions. The end of a `repeat` has a statement and no line of its own.
pub fn callbacks_are_written()
    ensures { (scene : Scene) → IsScene scene → first_refusal scene ≡ None → Paired (IsCallbackTold (plan_of scene) scene) (placed_that is_on scene) (plan_of scene).scripts }
{}

/// Of such a scene: each node of an expression of the plan is the scene's node with the same number. A name is
/// that of the variable of its callback, or of the object, for which the plan has a number.
pub fn expressions_are_written()
    ensures { (scene : Scene) → IsScene scene → first_refusal scene ≡ None → Each (AreNodesTold (plan_of scene) scene) (placed scene) }
{}

/// The picks of the plan are the numbers of the `picks` lines, one after another.
pub fn picks_are_written()
    ensures { (scene : Scene) → (plan_of scene).picks ≡ flat_map (λ l. l.picks) scene.lines }
{}

/// Of a scene that stands for a text, and in which nothing is refused: the numbers that the plan keeps in 8, 16 or 32
/// bits are within the limits of a scenario. Those that no limit bounds are at most the number of the scene's lines.
pub fn numbers_fit_their_types()
    ensures { (scene : Scene) → IsScene scene → first_refusal scene ≡ None → NumbersFit scene }
{}
