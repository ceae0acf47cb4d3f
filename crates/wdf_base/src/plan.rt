//! The plan of a run, and its readers.
//!
//! # Choices
//!
//! - **Are scopes and levels of the plan the written ones?** They are the effective ones, after all defaults. Nobody
//!   above needs the written ones, and the driver's own are gone with them.
//! - **What are agents of the plan?** From 1 on: the apps in the order of the text, the devices by id, the targets by
//!   id; each is added by the number of its name. The lines `at` of a device are its posts, and a target has none.
//! - **By what is a script found?** By its callback and the whole of what it is declared on; no two scripts of a
//!   resolved plan agree in both.
//! - **What is the plan's second reader of names?** `object_named` finds the declared object with a name's number.
//!   Only tests call it.
ghost use Rattle.std.specs.Prelude.{◌≡◌, ◌+◌, ◌<◌, ◌≤◌, length, Some, IfSome, position, slice_get, option_map};
ghost use Rattle.wdf_base.specs.Plan.{declared_of, posts_of, statements_of, script_of, agent_of, is_script_of, object_named};
ghost use Rattle.wdf_base.specs.Kinds.{has_name};

use crate::call::Callback;
use crate::declared::{ClassInfo, Declared, PostLine, RegisterInfo, WhenLine};
use crate::ids::ObjectId;
use crate::items::{FEW, Items, MANY};
use crate::name::{NAME_LIMIT, Name};
use crate::script::{AgentInfo, ExprNode, Script, Statement};
use std::mem;

/// A scenario with numbers in place of names.
pub struct Plan {
    /// How many processors there are.
    pub cpus: u8,
    /// The most events of the run.
    pub limit: u32,
    /// The most counted objects at one time.
    pub objects: u32,
    /// The names by their numbers: `driver`, `req`, and the declared ones in the order of their lines.
    pub names: Items<Name, MANY>,
    /// The driver object and the declared objects, in the order of their ids, which count from 1.
    pub declared: Items<Declared, MANY>,
    pub classes: Items<ClassInfo, FEW>,
    pub registers: Items<RegisterInfo, MANY>,
    /// The `when` lines in the order of the text.
    pub whens: Items<WhenLine, MANY>,
    /// The posts of the Plug and Play manager, which is agent 0.
    pub pnp: Items<PostLine, MANY>,
    /// The other agents, from agent 1: the apps, the devices, the targets.
    pub agents: Items<AgentInfo, FEW>,
    /// The nodes of all expressions.
    pub exprs: Items<ExprNode, MANY>,
    /// The callbacks that are declared.
    pub scripts: Items<Script, MANY>,
    pub picks: Items<u64, MANY>,
}

impl Drop for Plan {
    /// Lets go of each list by a call. So that is proved here once, and is one call wherever a plan is let go.
    fn drop(self) {
        let Plan {
            cpus: _,
            limit: _,
            objects: _,
            names,
            declared,
            classes,
            registers,
            whens,
            pnp,
            agents,
            exprs,
            scripts,
            picks,
        } = self;
        mem::drop(names);
        mem::drop(declared);
        mem::drop(classes);
        mem::drop(registers);
        mem::drop(whens);
        mem::drop(pnp);
        mem::drop(agents);
        mem::drop(exprs);
        mem::drop(scripts);
        mem::drop(picks);
    }
}

impl Plan {
    /// How many processors there are.
    pub fn cpus(&self) -> u8
        ensures { result ≡ self.now.cpus }
    {
        self.cpus
    }

    /// The most events of the run.
    pub fn limit(&self) -> u32
        ensures { result ≡ self.now.limit }
    {
        self.limit
    }

    /// The most counted objects at one time.
    pub fn objects(&self) -> u32
        ensures { result ≡ self.now.objects }
    {
        self.objects
    }

    /// How many names there are.
    pub fn name_len(&self) -> u32
        ensures { result ≡ length self.now.names }
    {
        self.names.len()
    }

    /// The bytes of name `n`.
    pub fn name(&self, n: u32) -> &[u8]
        requires { n < length self.now.names }
        ensures value { slice_get self.now.names n ≡ Some result.now }
        ensures small { length result.now ≤ NAME_LIMIT }
    {
        self.names.item(n).bytes()
    }

    /// How many objects are declared, the driver object among them.
    pub fn declared_len(&self) -> u32
        ensures { result ≡ length self.now.declared }
    {
        self.declared.len()
    }

    /// What the object with this id is, one of the driver object and the declared ones.
    pub fn declared(&self, o: ObjectId) -> Declared
        requires from { 1 ≤ o.0 }
        requires within { o.0 ≤ length self.now.declared }
        ensures { declared_of self.now o.0 ≡ Some result }
    {
        self.declared.get(o.0 - 1)
    }

    /// The id of the declared object whose name has this number, if there is one.
    pub fn object_named(&self, name: u32) -> Option<ObjectId>
        ensures { option_map (λ o. o.0) result ≡ object_named self.now name }
    {
        let found = find_named(self.declared.as_slice(), name);
        found.map(|k| ObjectId(k as u32 + 1))
    }

    /// How many classes there are.
    pub fn class_len(&self) -> u16
        ensures { result ≡ length self.now.classes }
    {
        self.classes.len() as u16
    }

    /// The class with number `c`.
    pub fn class(&self, c: u16) -> ClassInfo
        requires { c < length self.now.classes }
        ensures { slice_get self.now.classes c ≡ Some result }
    {
        self.classes.get(u32::from(c))
    }

    /// How many registers there are.
    pub fn register_len(&self) -> u32
        ensures { result ≡ length self.now.registers }
    {
        self.registers.len()
    }

    /// The register with number `k`.
    pub fn register(&self, k: u32) -> RegisterInfo
        requires { k < length self.now.registers }
        ensures { slice_get self.now.registers k ≡ Some result }
    {
        self.registers.get(k)
    }

    /// How many `when` lines there are.
    pub fn when_len(&self) -> u32
        ensures { result ≡ length self.now.whens }
    {
        self.whens.len()
    }

    /// The `when` line with number `k`.
    pub fn when(&self, k: u32) -> WhenLine
        requires { k < length self.now.whens }
        ensures { slice_get self.now.whens k ≡ Some result }
    {
        self.whens.get(k)
    }

    /// How many agents there are, the Plug and Play manager among them.
    pub fn agent_len(&self) -> u16
        ensures { result ≡ 1 + length self.now.agents }
    {
        1 + self.agents.len() as u16
    }

    /// The number of the name of an agent from 1 on.
    pub fn agent_name(&self, agent: u16) -> u32
        requires from { 1 ≤ agent }
        requires within { agent ≤ length self.now.agents }
        ensures { option_map (λ a. a.name) (agent_of self.now agent) ≡ Some result }
    {
        self.agents.item(u32::from(agent) - 1).name
    }

    /// How many posts the lines of an agent give.
    pub fn post_len(&self, agent: u16) -> u32
        requires { agent ≤ length self.now.agents }
        ensures { result ≡ length (posts_of self.now agent) }
    {
        self.posts(agent).len()
    }

    /// Post `k` of an agent.
    pub fn post(&self, agent: u16, k: u32) -> PostLine
        requires agent { agent ≤ length self.now.agents }
        requires within { k < length (posts_of self.now agent) }
        ensures { slice_get (posts_of self.now agent) k ≡ Some result }
    {
        self.posts(agent).get(k)
    }

    /// The posts that the lines of an agent give.
    fn posts(&self, agent: u16) -> &Items<PostLine, MANY>
        requires { agent ≤ length self.now.agents }
        ensures { result.now ≡ posts_of self.now agent }
    {
        if agent == 0 {
            &self.pnp
        } else {
            &self.agents.item(u32::from(agent) - 1).posts
        }
    }

    /// How many nodes of expressions there are.
    pub fn expr_len(&self) -> u32
        ensures { result ≡ length self.now.exprs }
    {
        self.exprs.len()
    }

    /// The node `e` of the expressions.
    pub fn expr(&self, e: u32) -> ExprNode
        requires { e < length self.now.exprs }
        ensures { slice_get self.now.exprs e ≡ Some result }
    {
        self.exprs.get(e)
    }

    /// How many callbacks are declared.
    pub fn script_len(&self) -> u32
        ensures { result ≡ length self.now.scripts }
    {
        self.scripts.len()
    }

    /// The number of the script of a callback on `o`, if it is declared there.
    pub fn script(&self, callback: Callback, o: Declared) -> Option<u32>
        ensures { result ≡ script_of self.now callback o }
    {
        let found = find_script(self.scripts.as_slice(), callback, &o);
        found.map(|k| k as u32)
    }

    /// The line of the `on` of a script.
    pub fn script_line(&self, script: u32) -> u32
        requires { script < length self.now.scripts }
        ensures { option_map (λ s. s.line) (slice_get self.now.scripts script) ≡ Some result }
    {
        self.scripts.item(script).line
    }

    /// The callback of a script.
    pub fn script_callback(&self, script: u32) -> Callback
        requires { script < length self.now.scripts }
        ensures { option_map (λ s. s.callback) (slice_get self.now.scripts script) ≡ Some result }
    {
        self.scripts.item(script).callback
    }

    /// What a script's callback is declared on.
    pub fn script_owner(&self, script: u32) -> Declared
        requires { script < length self.now.scripts }
        ensures { option_map (λ s. s.owner) (slice_get self.now.scripts script) ≡ Some result }
    {
        self.scripts.item(script).owner
    }

    /// How many statements a script has.
    pub fn statement_len(&self, script: u32) -> u32
        requires { script < length self.now.scripts }
        ensures { result ≡ length (statements_of self.now script) }
    {
        self.scripts.item(script).statements.len()
    }

    /// Statement `at` of a script, counted from 0.
    pub fn statement(&self, script: u32, at: u32) -> Statement
        requires script { script < length self.now.scripts }
        requires within { at < length (statements_of self.now script) }
        ensures { slice_get (statements_of self.now script) at ≡ Some result }
    {
        self.scripts.item(script).statements.get(at)
    }

    /// The numbers by which the run picks its events.
    pub fn picks(&self) -> &[u64]
        ensures { result.now ≡ self.now.picks }
    {
        self.picks.as_slice()
    }
}

// The place of the script of a callback on an object.
fn find_script(scripts: &[Script], callback: Callback, owner: &Declared) -> Option<usize>
    ensures value { result ≡ position (is_script_of callback owner.now) scripts.now }
    ensures small { IfSome result (λ k. k < length scripts.now) }
{
    scripts
        .iter()
        .position(|script| script.is_of(callback, owner))
}

// The place of the declared object with a name.
fn find_named(declared: &[Declared], name: u32) -> Option<usize>
    ensures value { result ≡ position (has_name name) declared.now }
    ensures small { IfSome result (λ k. k < length declared.now) }
{
    declared.iter().position(|object| object.has_name(name))
}
